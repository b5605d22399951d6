ghost use Rattle.std.specs.Prelude.{◌≡◌, ◌<◌, ◌≤◌, IfOk, length};
ghost use Rattle.sail_gen.specs.Image as spec;
ghost use Rattle.sail_gen.specs.Model.{model_text as text_of};

use crate::draws::Draws;
use crate::image::image;
use crate::model::model_text;
use std::alloc::{AllocError, Global};

/// The text of the model of so many functions that is made of a seed, and the image of a program that calls them.
///
/// The seed is at most 65,535, and there are 1 to 4,000 functions. The text is no longer than a model's file may be. The one error is
/// want of memory.
pub fn synth(alloc: Global, seed: u32, size: u32) -> Result<(Vec<u8>, Vec<u8>), AllocError>
    requires seed { seed ≤ 65535 }
    requires some { 0 < size }
    requires few { size ≤ 4000 }
    ensures text { IfOk result (λ made. made.0.items ≡ text_of seed size) }
    ensures image { IfOk result (λ made. made.1.items ≡ spec.image seed size) }
    ensures short { IfOk result (λ made. length made.0.items ≤ 4194304) }
{
    let mut draws = Draws { state: seed };
    let text = model_text(alloc, &mut draws, size)?;
    let image = image(alloc, &mut draws, size)?;
    Ok((text, image))
}
