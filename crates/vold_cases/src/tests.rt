use crate::playing::play;
use std::test::Fail;
use vold_io::MemSink;

/// Inputs that are no cases, and the lines that tell it.
const WRONG: [(&str, &str); 6] = [
    (
        "create 10\n.\n",
        "line 1: a case begins with a line 'case NAME WORDS'\n",
    ),
    (
        "case one",
        "line 1: a case begins with a line 'case NAME WORDS'\n",
    ),
    (
        "case one run\n.\ncases two run\n.\n",
        "line 3: a case begins with a line 'case NAME WORDS'\n",
    ),
    (
        "case one run\nplan tree 0\n.\n",
        "line 2: a fault is planned by a line 'plan DEVICE N'\n",
    ),
    (
        "case one run\nplan tree 1\nplan disk 1\n.\n",
        "line 3: a fault is planned by a line 'plan DEVICE N'\n",
    ),
    (
        "case one run\ncreate 10\nall\n",
        "line 4: a case ends with a line with a single dot\n",
    ),
];

#[test]
fn tells_what_is_wrong(rt: HostRuntime) -> Result<(), Fail> {
    for (input, line) in WRONG {
        let mut sink = MemSink::new(rt.alloc(), None);
        assert!(rt; play(rt.alloc(), input.as_bytes(), &mut sink) == Ok(false));
        assert_eq!(rt; sink.as_slice(), line.as_bytes());
    }
    Ok(())
}
