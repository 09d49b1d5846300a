// Whole walks over values that were read.
ghost use Rattle.std.specs.Prelude.{◌≡◌, true, length};
ghost use Rattle.rules.specs.Document01.Walk.{stepped_of, fresh_of, voltage_stepped, voltage_to};
ghost use Rattle.rules.specs.Words.{shown_count, ran};
ghost use Rattle.chip_bytes.specs.Calls.{asked_of};

// What the register walk of a request shows, nine words each; a refused request shows its refusal. The answer counts them.
pub fn clock_walk(request: &[u8], chip: &[u8], reads: &[u32], shown: &mut [u32]) -> usize
    ensures count { result ≡ shown_count (length reads.now) (length shown.old) }
    ensures shown { shown.new ≡ ran stepped_of (fresh_of (asked_of request.now chip.now true)) reads.now shown.old result }
{
    let x = chip_bytes::plan(request, chip, true);
    walk::run(&x, reads, shown)
}

// The same of the voltage walk to a scale.
pub fn clock_voltage_walk(target: u32, reads: &[u32], shown: &mut [u32]) -> usize
    ensures count { result ≡ shown_count (length reads.now) (length shown.old) }
    ensures shown { shown.new ≡ ran (voltage_stepped target) (voltage_to target) reads.now shown.old result }
{
    pwr::run(target, reads, shown)
}
