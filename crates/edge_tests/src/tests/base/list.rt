use net_base::{Octets, OutOfMemory};
use std::alloc::Global;
use std::test::Fail;

// 7 goes in, and 9 and 11 behind it.
fn grown(alloc: Global) -> Result<Octets, OutOfMemory> {
    let mut octets = Octets::new(alloc);
    octets.push(7)?;
    octets.extend_from_slice(&[9, 11])?;
    Ok(octets)
}

fn come_out_again(octets: Octets) -> bool {
    let again = Octets::from_vec(octets.into_vec());
    again.as_slice() == [7, 9, 11].as_slice()
}

#[test]
fn items_go_in_and_out(rt: HostRuntime) -> Result<(), Fail> {
    let octets = grown(rt.alloc())?;
    assert!(rt; octets.as_slice() == [7, 9, 11].as_slice());
    assert!(rt; octets == Octets::from_slice(rt.alloc(), &[7, 9, 11])?);
    assert!(rt; come_out_again(octets));
    Ok(())
}
