//! The samples of a whole list of items.
ghost use Rattle.std.specs.Prelude.{◌≡◌, ◌++◌, List, [], Err, OnOk, IfOk, IfErr, IsOk};
ghost use Rattle.std.specs.Option.{option_to_list};
ghost use Rattle.xif_base.specs.Params.{IsInRange};
ghost use Rattle.xif_sampler.specs.declared.source.Source.{Source};
ghost use Rattle.xif_sampler.specs.declared.fault.MapFault.{MapFault};
ghost use Rattle.xif_sampler.specs.Places.{sources_of};
ghost use Rattle.xif_sampler.specs.Samples.{samples_by, samples_of};
ghost use Rattle.xif_sampler.specs.Keeping.{Represents};

use crate::fault::MapFail;
use crate::place::SignalMap;
use crate::sampler::Sampler;
use std::alloc::{AllocError, Global};
use vcd_text::{Declarations, Item};
use xif_base::Params;
use xif_signals::Sample;

/// The samples of the items of a waveform, by a map and the variables that it declares. The fault
/// is as in `Sampler::new`.
pub fn sample_items(
    alloc: Global,
    map: &SignalMap,
    declarations: &Declarations,
    params: &Params,
    items: &[Item],
) -> Result<Vec<Sample>, MapFail>
    requires { IsInRange params.now }
    ensures fits { IfOk result (λ _. IsOk (sources_of map.now declarations.now params.now)) }
    ensures samples { IfOk result (λ samples.
        samples.items ≡ samples_of map.now declarations.now params.now items.now) }
    ensures fault { IfErr result (λ fail. (fault : MapFault) → fail ≡ MapFail.Map fault →
        sources_of map.now declarations.now params.now ≡ Err fault) }
{
    let sampler = Sampler::new(alloc, map, declarations, params)?;
    Ok(sample_all(alloc, sampler, items)?)
}

fn sample_all(
    alloc: Global,
    mut sampler: Sampler,
    items: &[Item],
) -> Result<Vec<Sample>, AllocError>
    ensures { (sources : List Source) → Represents sampler sources [] →
        IfOk result (λ samples. samples.items ≡ samples_by sources items.now) }
{
    let mut samples = Vec::new(alloc);
    for item in items {
        push(&mut samples, sampler.take(item))?;
    }
    push(&mut samples, sampler.finish())?;
    Ok(samples)
}

fn push(samples: &mut Vec<Sample>, sample: Option<Sample>) -> Result<(), AllocError>
    ensures { OnOk result (samples.new.items ≡ samples.old.items ++ option_to_list sample) }
{
    if let Some(sample) = sample {
        samples.push(sample)?;
    }
    Ok(())
}
