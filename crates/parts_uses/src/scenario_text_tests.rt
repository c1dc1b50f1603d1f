use kern_ids::faults::{ReadFault, Why};
use scenario_text::read_front;
use std::test::Fail;

const FRONT: &str =
    "jetlab 1\nsystem frames 8 target 8 inactive 3 store 4 critical 0 delay 3\ntask 0 band 5 active 65536 soft inactive 65536 soft\nobject 0 task 0 pages 1\nthread 0 task 0\nmap 0\norder 0\nend\n";

#[test]
fn fronts(rt: HostRuntime) -> Result<(), Fail> {
    for rest in ["", "x", "\n", "history\ndone 0\n"] {
        let text = format!(in rt.alloc(); "{FRONT}{rest}")?;
        match read_front(rt.alloc(), text.as_bytes()) {
            Ok((scenario, bytes, lines)) => {
                assert_eq!(rt; scenario.call_count(), 1);
                assert_eq!(rt; bytes, FRONT.len());
                assert_eq!(rt; lines, 8);
            }
            Err(_) => assert!(rt; false, "{text}"),
        }
    }
    Ok(())
}

#[test]
fn faults(rt: HostRuntime) -> Result<(), Fail> {
    for (text, line, why) in [
        ("", 1, Why::NoEnd),
        ("jetlab 3\n", 1, Why::Word),
        ("jetlab 1\nend\n", 2, Why::Word),
        ("jetlab 1\nsystem frames 0", 2, Why::NoEnd),
    ] {
        match read_front(rt.alloc(), text.as_bytes()) {
            Err(fault) => assert_eq!(rt; fault, ReadFault::Bad { line, why }),
            Ok(_) => assert!(rt; false, "{text}"),
        }
    }
    Ok(())
}
