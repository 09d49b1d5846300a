// The C functions of the planner and its walks, exported: each calls the function of its name in clock_api and promises the same. include/clock_api.h.
#![tactic(auto)]

ghost use Rattle.std.specs.Prelude.{◌≡◌, eqb, length, true};
ghost use Rattle.chip_bytes.specs.Calls.{asked_of, bank_asked, checked_chip};
ghost use Rattle.clock_api.specs.Calls.{list_by, report_by};
ghost use Rattle.clock_api.specs.OnePll.{pll_for, pll_room};
ghost use Rattle.pll_registers.specs.Calls.{registers_asked, registers_by};
ghost use Rattle.request.specs.Request.{part_of};
ghost use Rattle.rules.specs.Document01.Bank.{apply_all};
ghost use Rattle.rules.specs.Document01.Entries.{entries_of};
ghost use Rattle.rules.specs.Document01.Refusals.{code_of};
ghost use Rattle.rules.specs.Document01.Walk.{fresh_of, stepped_of, voltage_stepped, voltage_to};
ghost use Rattle.rules.specs.Words.{list_length, ran, shown_count};

// A plan's clocks, in 55 words.
#[unsafe(no_mangle)]
pub extern "C" fn clock_plan(request: &[u8], chip: &[u8], report: &mut [u32]) -> u32
    ensures code { result ≡ code_of (asked_of request.now chip.now (eqb (length report.old) 55)) }
    ensures report { report.new ≡ report_by (asked_of request.now chip.now (eqb (length report.old) 55)) report.old }
{
    clock_api::clock_plan(request, chip, report)
}

// A plan's register entries: the count, and nine words for each.
#[unsafe(no_mangle)]
pub extern "C" fn clock_entries(request: &[u8], chip: &[u8], list: &mut [u32]) -> u32
    ensures code { result ≡ code_of (asked_of request.now chip.now (eqb (length list.old) list_length)) }
    ensures list { list.new ≡ list_by (asked_of request.now chip.now (eqb (length list.old) list_length)) list.old }
{
    clock_api::clock_entries(request, chip, list)
}

// The whole list applied to a bank of 82 words.
#[unsafe(no_mangle)]
pub extern "C" fn clock_bank(request: &[u8], chip: &[u8], bank: &mut [u32]) -> u32
    ensures code { result ≡ code_of (bank_asked request.now chip.now true (length bank.old)) }
    ensures bank { bank.new ≡ apply_all (entries_of (bank_asked request.now chip.now true (length bank.old))) bank.old }
{
    clock_api::clock_bank(request, chip, bank)
}

// A plan's clocks in 55 words, and the whole list applied to a bank of 82 words.
#[unsafe(no_mangle)]
pub extern "C" fn clock_plan_bank(
    request: &[u8],
    chip: &[u8],
    report: &mut [u32],
    bank: &mut [u32],
) -> u32
    ensures code { result ≡ code_of (bank_asked request.now chip.now (eqb (length report.old) 55) (length bank.old)) }
    ensures report { report.new ≡ report_by (bank_asked request.now chip.now (eqb (length report.old) 55) (length bank.old)) report.old }
    ensures bank { bank.new ≡ apply_all (entries_of (bank_asked request.now chip.now (eqb (length report.old) 55) (length bank.old))) bank.old }
{
    clock_api::both::clock_plan_bank(request, chip, report, bank)
}

// What is chosen for one PLL, in 18 words. The part is its 16 bytes of a request; odd is 1 where P may divide by an odd number.
#[unsafe(no_mangle)]
pub extern "C" fn clock_pll(odd: u32, source: u32, part: &[u8], out: &mut [u32]) -> u32
    ensures code { result ≡ code_of (pll_for odd source (part_of part.now) (length out.old)) }
    ensures out { out.new ≡ pll_room (pll_for odd source (part_of part.now) (length out.old)) out.old }
{
    clock_api::one_pll::clock_pll(odd, source, part, out)
}

// CFGR, DIVR and FRACR of each PLL in PLL order, in nine words: on a chip with two PLLs the last three stay.
#[unsafe(no_mangle)]
pub extern "C" fn clock_pll_registers(request: &[u8], chip: &[u8], words: &mut [u32]) -> u32
    ensures code { result ≡ code_of (registers_asked request.now (checked_chip chip.now true) (length words.old)) }
    ensures words { words.new ≡ registers_by (registers_asked request.now (checked_chip chip.now true) (length words.old)) words.old }
{
    clock_api::plls::clock_pll_registers(request, chip, words)
}

// What the register walk of a request shows, nine words each; a refused request shows its refusal. The answer counts them.
#[unsafe(no_mangle)]
pub extern "C" fn clock_walk(request: &[u8], chip: &[u8], reads: &[u32], shown: &mut [u32]) -> usize
    ensures count { result ≡ shown_count (length reads.now) (length shown.old) }
    ensures shown { shown.new ≡ ran stepped_of (fresh_of (asked_of request.now chip.now true)) reads.now shown.old result }
{
    clock_api::walks::clock_walk(request, chip, reads, shown)
}

// The same of the voltage walk to a scale.
#[unsafe(no_mangle)]
pub extern "C" fn clock_voltage_walk(target: u32, reads: &[u32], shown: &mut [u32]) -> usize
    ensures count { result ≡ shown_count (length reads.now) (length shown.old) }
    ensures shown { shown.new ≡ ran (voltage_stepped target) (voltage_to target) reads.now shown.old result }
{
    clock_api::walks::clock_voltage_walk(target, reads, shown)
}
