ghost use Rattle.std.specs.Prelude.{◌≡◌, IfOk};
ghost use Rattle.rand_pcg.specs.Pcg.{pcg64};

use net_base::OutOfMemory;
use rand_core::utils::NextWord;
use rand_pcg::Pcg64;

/// The next 64 bits of a generator, and the generator behind them.
pub(crate) fn draw(generator: &Pcg64) -> Result<(u64, Pcg64), OutOfMemory>
    ensures { IfOk result (λ drawn. drawn ≡ pcg64 generator.now) }
{
    let mut after = generator.clone()?;
    let word = after.next_word();
    Ok((word, after))
}
