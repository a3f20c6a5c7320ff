//! How much one registration may have.

ghost use Rattle.std.specs.Prelude.{◌≡◌, ◌≤◌, ◌<◌, ◌+◌, IfSome, IsNone, [], length, sum_by, unwrap_or, nat_le};
ghost use Rattle.std.specs.Option.{option_copied};
ghost use Rattle.kr_defs.specs.Image as images;
ghost use Rattle.kr_defs.specs.declared.limits.TheConstants.{MOST_REGISTRATION_TEXT as most};

use crate::sums::added_within;
use kr_defs::limits::{MOST_ENDPOINTS, MOST_RANGES, MOST_REGISTRATION_TEXT};
use kr_defs::{Broker, Endpoint, Range, Text};

fn add_length(total: usize, more: usize) -> Option<usize>
    requires { total ≤ most }
    ensures some { IfSome result (λ sum. (sum ≡ total + more) × (sum ≤ most)) }
    ensures none { IsNone result → most < total + more }
{
    added_within(MOST_REGISTRATION_TEXT, total, more)
}

// The total with the bytes of the endpoints' names and hosts.
fn with_endpoints(endpoints: &[Endpoint]) -> Option<usize>
    ensures some { IfSome result (λ text. (text ≡ sum_by (λ e. length e.name + length e.host) endpoints.now) × (text ≤ most)) }
    ensures none { IsNone result → most < sum_by (λ e. length e.name + length e.host) endpoints.now }
{
    let mut total = 0;
    for endpoint in endpoints {
        let named = add_length(total, endpoint.name.len())?;
        total = add_length(named, endpoint.host.len())?;
    }
    Some(total)
}

// The same with the bytes of the features' names.
fn with_features(start: usize, features: &[Range]) -> Option<usize>
    requires { start ≤ most }
    ensures some { IfSome result (λ text. (text ≡ start + sum_by (λ r. length r.name) features.now) × (text ≤ most)) }
    ensures none { IsNone result → most < start + sum_by (λ r. length r.name) features.now }
{
    let mut total = start;
    for range in features {
        total = add_length(total, range.name.len())?;
    }
    Some(total)
}

fn rack_len(rack: &Option<Text>) -> usize
    ensures { result ≡ length (unwrap_or rack.now []) }
{
    match rack {
        Some(rack) => rack.len(),
        None => 0,
    }
}

fn text_len(state: &Broker) -> Option<usize>
    ensures some { IfSome result (λ text. (text ≡ images.registration_text state.now) × (text ≤ most)) }
    ensures none { IsNone result → most < images.registration_text state.now }
{
    let named = with_endpoints(state.endpoints.as_slice())?;
    let featured = with_features(named, state.features.as_slice())?;
    add_length(featured, rack_len(&state.rack))
}

fn has_little_text(state: &Broker) -> bool
    ensures { result ≡ nat_le (images.registration_text state.now) most }
{
    text_len(state).is_some()
}

/// No limit of one registration is passed.
pub(crate) fn is_small_registration(state: &Broker) -> bool
    ensures { result ≡ images.is_small_registration state.now }
{
    state.endpoints.len() <= MOST_ENDPOINTS
        && state.features.len() <= MOST_RANGES
        && has_little_text(state)
}
