//! That an engine may be given to a thread.

use crate::Engine;

fn is_sent<T: Send>(_value: &T) {}

pub(crate) fn an_engine_is_sent(engine: &Engine) {
    is_sent(engine);
}
