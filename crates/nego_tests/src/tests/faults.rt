//! Numbers and texts of the faults.
use nego_core::NegoFault;
use std::process::Abort;
use std::test::Fail;

fn shows(rt: &(impl Abort + AllocGlobal), fault: NegoFault, expected: &str) -> Result<(), Fail> {
    let number = fault.number();
    let shown = format!(in rt.alloc(); "{number} {fault}")?;
    assert!(rt; shown.as_str() == expected, "{shown}");
    Ok(())
}

#[test]
fn texts(rt: HostRuntime) -> Result<(), Fail> {
    let malformed = NegoFault::FieldMalformed { offset: 65534 };
    shows(&rt, NegoFault::FieldTooLong, "8 field is over 65535 bytes")?;
    shows(&rt, malformed, "9 field element at 65534")?;
    shows(&rt, NegoFault::NoMemory, "26 out of memory")
}
