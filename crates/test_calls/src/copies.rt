//! Calls of kr_defs that take memory, once with memory to spare; rows of batches copy records.

use kr_defs::*;
use std::alloc::{AllocError, Global};

fn topic(alloc: Global) -> Result<Topic, AllocError> {
    let name = Text::from_str(alloc, "t")?;
    Ok(Topic { name, id: 9 })
}

fn is_copied<T: Copied + PartialEq + Drop>(alloc: Global, value: &T) -> Result<bool, AllocError> {
    let copy = value.copied(alloc)?;
    Ok(copy == *value)
}

fn are_keys_copied(alloc: Global) -> Result<bool, AllocError> {
    let topic = topic(alloc)?;
    let key = ConfigKey {
        kind: 4,
        name: Text::new(alloc),
        key: Text::from_str(alloc, "note")?,
    };
    Ok(is_copied(alloc, &topic)? && is_copied(alloc, &key)?)
}

fn are_numbers_copied(alloc: Global) -> Result<bool, AllocError> {
    Ok(
        is_copied(alloc, &(9_u128, 8_i32))?
            && is_copied(alloc, &7_i16)?
            && is_copied(alloc, &7_i64)?
            && is_copied(alloc, &7_u128)?
            && is_copied(alloc, &7_u8)?,
    )
}

#[test]
fn keys_and_numbers_are_copied(rt: HostRuntime) -> Result<(), AllocError> {
    assert!(rt; are_keys_copied(rt.alloc())?);
    assert!(rt; are_numbers_copied(rt.alloc())?);
    Ok(())
}

#[test]
fn contacts_are_copied(rt: HostRuntime) -> Result<(), AllocError> {
    let alloc = rt.alloc();
    let mut contacts = Contacts::new(alloc);
    contacts.push(Contact {
        broker: 1,
        time: 1000,
        offset: -1,
    })?;
    assert!(rt; contacts.copied(alloc)? == contacts);
    let mut stops = Stops::new(alloc);
    stops.push(Stopping { broker: 2, tip: 7 })?;
    assert!(rt; stops.copied(alloc)? == stops);
    Ok(())
}

#[test]
fn a_list_in_text_has_its_parts(rt: HostRuntime) -> Result<(), AllocError> {
    let alloc = rt.alloc();
    let text = Text::from_utf8(alloc, b"delete,,compact")?;
    let all = parts(alloc, &text)?;
    let mut wanted = Texts::new(alloc);
    wanted.push(Text::from_str(alloc, "delete")?)?;
    wanted.push(Text::new(alloc))?;
    wanted.push(Text::from_str(alloc, "compact")?)?;
    assert!(rt; all == wanted);
    Ok(())
}
