//! Lists in one text, with commas between their parts.

ghost use Rattle.std.specs.Prelude.{◌≡◌, ◌==◌, ◌<◌, ◌∷◌, [], length, IfOk, IfSome, IfNone};
ghost use Rattle.std.specs.List.{slice_split};
ghost use Rattle.kr_defs.specs.Texts as texts;

use crate::{Rows, Text, Texts};
use std::alloc::{AllocError, Global};

// What stands before the first comma and what stands behind it, where there is one.
fn cut(text: &str) -> Option<(&str, &str)>
    ensures none { IfNone result (slice_split (λ byte. byte == 44) text.now ≡ text.now ∷ []) }
    ensures some { IfSome result (λ x. slice_split (λ byte. byte == 44) text.now ≡ x.0.now ∷ slice_split (λ byte. byte == 44) x.1.now) }
    ensures less { IfSome result (λ x. length x.1.now < length text.now) }
{
    match text.split_once(',') {
        Some((before, behind)) => Some((before, behind)),
        None => None,
    }
}

/// The parts between the commas, as a configuration value of type list has them; an empty text has none.
pub fn parts(alloc: Global, text: &Text) -> Result<Texts, AllocError>
    ensures { IfOk result (λ all. all ≡ texts.parts text.now) }
{
    let mut all = Rows::new(alloc);
    if text.is_empty() {
        return Ok(all);
    }
    let mut rest = text.as_str();
    while let Some((part, more)) = cut(rest) {
        all.push(Text::from_str(alloc, part)?)?;
        rest = more;
    }
    all.push(Text::from_str(alloc, rest)?)?;
    Ok(all)
}
