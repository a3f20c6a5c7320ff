//! What is encoded stands behind what stood there.

use kr_base::NoMemory;
use kr_defs::Record;

#[test]
#[tactic(auto, unfolding(kr_record::specs::Records::chosen))]
fn a_record_behind_a_byte(rt: HostRuntime) -> Result<(), NoMemory> {
    let mut out = vec![in rt.alloc(); 0xAB]?;
    kr_record::encode(&Record::NoOp, &mut out)?;
    assert!(rt; out.as_slice() == [0xAB, 0x01, 0x14, 0x00, 0x00].as_slice());
    Ok(())
}
