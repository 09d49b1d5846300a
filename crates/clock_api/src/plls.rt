// The registers of each PLL as words.
ghost use Rattle.std.specs.Prelude.{◌≡◌, true, length};
ghost use Rattle.rules.specs.Document01.Refusals.{code_of};
ghost use Rattle.chip_bytes.specs.Calls.{checked_chip};
ghost use Rattle.pll_registers.specs.Calls.{registers_asked, registers_by};

// CFGR, DIVR and FRACR of each PLL in PLL order, in nine words: on a chip with two PLLs the last three stay.
pub fn clock_pll_registers(request: &[u8], chip: &[u8], words: &mut [u32]) -> u32
    ensures code { result ≡ code_of (registers_asked request.now (checked_chip chip.now true) (length words.old)) }
    ensures words { words.new ≡ registers_by (registers_asked request.now (checked_chip chip.now true) (length words.old)) words.old }
{
    let answer = pll_registers::plan_registers(request, chip_bytes::checked(chip, true), words);
    refusal::code_of(&answer)
}
