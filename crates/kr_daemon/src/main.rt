//! The daemon: a controller that is served over TCP.
#![tactic(auto)]

use kr_flags::{SettingsFault, help, settings};
use kr_host::{Ended, run, tell_no_memory, tell_refused};
use kr_process::{WordsFault, words_of};

fn main(rt: HostRuntime) -> Ended {
    let words = match words_of(&rt) {
        Ok(words) => words,
        Err(WordsFault::NotText) => return tell_refused(&rt),
        Err(WordsFault::NoMemory) => return tell_no_memory(&rt),
    };
    match settings(rt.alloc(), &words) {
        Ok(settings) => run(rt, settings),
        Err(SettingsFault::NoMemory) => tell_no_memory(&rt),
        Err(SettingsFault::Refused) => match help(rt.alloc(), &words) {
            Some(text) => {
                let _ = text.print(&rt);
                Ended::Done
            }
            None => tell_refused(&rt),
        },
    }
}
