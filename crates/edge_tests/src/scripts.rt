use crate::lines::line_of_two;
use script_lines::{Halt, ScriptFault, sizes_of};
use std::alloc::{AllocError, Global};
use std::process::Abort;

/// Each form of a line with ample memory is read, and the texts of what is wrong with one.
#[test]
fn forms_of_lines(rt: HostRuntime) {
    let lines: [&[u8]; 11] = [
        b"at n0 SET b 1",
        b"asking n1 GET \"\"",
        b"setslot 3300 importing n0 at n1",
        b"setslot 3300 migrating n1 at n0",
        b"setslot 3300 node n1 at n0",
        b"setslot 3300 stable at n1",
        b"getkeysinslot 3300 10 at n0",
        b"migrate b {b}1 at n0 to n1",
        b"run",
        b"abandon",
        b"resume by 10",
    ];
    for line in lines {
        assert!(rt; line_of_two(rt.alloc(), line).is_ok());
    }
}

/// The fault of a line, as it is printed.
fn assert_fault(rt: &impl Abort, alloc: Global, line: &[u8], text: &str) -> Result<(), AllocError> {
    match line_of_two(alloc, line) {
        Ok(_) => assert!(rt; false),
        Err(halt) => assert!(rt; halt.to_string(alloc)?.as_str() == text),
    }
    Ok(())
}

const FAULTS: &[(&[u8], &str)] = &[
    (b"at n0", "2 Verb"),
    (b"at n2 GET b", "3 Node"),
    (b"getkeysinslot 16384 1 at n0", "4 Number"),
    (b"at n0 GET \\x0", "5 Word"),
];

#[test]
fn faults_of_lines(rt: HostRuntime) -> Result<(), AllocError> {
    for &(line, text) in FAULTS {
        assert_fault(&rt, rt.alloc(), line, text)?;
    }
    Ok(())
}

#[test]
fn sizes_of_first_lines(rt: HostRuntime) {
    match sizes_of(rt.alloc(), b"cluster 8 even 3") {
        Ok(sizes) => assert!(rt; sizes.nodes == 8 && sizes.owning == 3),
        Err(_) => assert!(rt; false),
    }
    let fault = Err(Halt::Fault(ScriptFault::NoCluster));
    assert!(rt; sizes_of(rt.alloc(), b"cluster") == fault);
}
