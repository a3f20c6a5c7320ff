//! The body of an Open frame.

ghost use Rattle.std.specs.Prelude.{◌≡◌, ◌≤◌, pos, [], length, drop, IfOk, IsErrOf, IsUtf8, IsTrue, ◌↔◌, Ok, Err, MatchResult};
ghost use Rattle.kr_defs.specs.OpenOptions as opening;
ghost use Rattle.kr_defs.specs.Partition.{is_natural};
ghost use Rattle.kr_defs.specs.declared.options.Options.{Options as AnyOptions};
ghost use Rattle.kr_stream.specs.Frames.{IsOptions};
ghost use Rattle.kr_stream.specs.inner.Bodies.{options_at, options_with};

use crate::bodies::BodyFault;
use kr_defs::{Options, Text};
use kr_wire::{WireFault, read_i16, read_i32, read_i64, read_u32, read_u64};
use std::alloc::Global;

// The settings but for the cluster id, and where that begins.
#[derive(Clone, Copy, Drop)]
struct Opening {
    node: i32,
    salt: u64,
    session_ms: u32,
    partitions: i32,
    factor: i16,
    minimum: i32,
    cluster: usize,
}

#[tactic(auto, unfolding(crate::specs::inner::Bodies::options_at))]
fn read_opening(body: &[u8]) -> Result<Opening, WireFault>
    ensures bound { IfOk result (λ o. o.cluster ≤ length body.now) }
    ensures read { MatchResult result
        (λ o. options_at body.now ≡ Ok (options_with o (drop o.cluster body.now), []))
        (λ e. options_at body.now ≡ Err e) }
{
    let (node, at) = read_i32(body, 0)?;
    let (salt, at) = read_u64(body, at)?;
    let (session_ms, at) = read_u32(body, at)?;
    let (partitions, at) = read_i32(body, at)?;
    let (factor, at) = read_i16(body, at)?;
    let (minimum, cluster) = read_i32(body, at)?;
    Ok(Opening {
        node,
        salt,
        session_ms,
        partitions,
        factor,
        minimum,
        cluster,
    })
}

/// The settings of an Open frame's body.
pub(crate) fn options(alloc: Global, body: &[u8]) -> Result<Options, BodyFault>
    ensures found { IfOk result (λ options. IsOptions options body.now) }
    ensures misfit { IsErrOf result BodyFault.Misfit → (options : AnyOptions) →
        IsOptions options body.now → ⊥ }
{
    match read_opening(body) {
        Err(_) => Err(BodyFault::Misfit),
        Ok(opening) => {
            let (_, cluster) = body.split_at(opening.cluster);
            options_with(alloc, opening, cluster)
        }
    }
}

// The settings with the cluster id of these bytes.
fn options_with(alloc: Global, o: Opening, cluster: &[u8]) -> Result<Options, BodyFault>
    ensures found { IfOk result (λ options. IsTrue (opening.are_options options) × IsUtf8 cluster.now
        × (options ≡ options_with o cluster.now)) }
    ensures misfit { IsErrOf result BodyFault.Misfit →
        IsTrue (opening.are_options (options_with o cluster.now)) → IsUtf8 cluster.now → ⊥ }
{
    if !is_text(cluster) {
        return Err(BodyFault::Misfit);
    }
    let options = match Text::from_utf8(alloc, cluster) {
        Err(_) => return Err(BodyFault::NoMemory),
        Ok(cluster) => Options {
            node: o.node,
            salt: o.salt,
            session_ms: o.session_ms,
            partitions: o.partitions,
            factor: o.factor,
            minimum: o.minimum,
            cluster,
        },
    };
    if !options.is_fit() {
        return Err(BodyFault::Misfit);
    }
    Ok(options)
}

fn is_text(bytes: &[u8]) -> bool
    ensures { IsTrue result ↔ IsUtf8 bytes.now }
{
    str::from_utf8(bytes).is_ok()
}
