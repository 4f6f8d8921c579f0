// Good and bad lines, and the lines of small scripts.
use crate::commands::{Command, parse};
use crate::lines::{Line, next_line};

#[test]
fn reads_every_command(rt: HostRuntime) {
    assert_eq!(rt;
        parse(b"write 3 100 2 7a"),
        Some(Command::Write {
            tag: 3,
            from: 100,
            many: 2,
            fill: 0x7a,
        })
    );
    assert_eq!(rt;
        parse(b"read 255 4294967295 0"),
        Some(Command::Read {
            tag: 255,
            from: 4294967295,
            many: 0,
        })
    );
    assert_eq!(rt;
        parse(b"trim 0 8 1"),
        Some(Command::Trim {
            tag: 0,
            from: 8,
            many: 1,
        })
    );
    assert_eq!(rt; parse(b"flush 5"), Some(Command::Flush { tag: 5 }));
    assert_eq!(rt; parse(b"turn 20"), Some(Command::Turn { count: 20 }));
    assert_eq!(rt; parse(b"cut 0"), Some(Command::Cut { asks: 0 }));
    assert_eq!(rt;
        parse(b"seed 4294967295"),
        Some(Command::Seed { seed: 4294967295 })
    );
}

#[test]
fn refuses_numbers(rt: HostRuntime) {
    let bad: [&[u8]; 10] = [
        b"cut 4294967296",
        b"cut 18446744073709551616",
        b"cut 99999999999999999999999999999999999999999",
        b"cut 00",
        b"cut 01",
        b"cut -1",
        b"cut 1a",
        b"cut",
        b"flush 256",
        b"flush 4294967296",
    ];
    for line in bad {
        assert_eq!(rt; parse(line), None);
    }
}

#[test]
fn refuses_bytes(rt: HostRuntime) {
    let bad: [&[u8]; 7] = [
        b"write 3 100 2 7A",
        b"write 3 100 2 7",
        b"write 3 100 2 7ab",
        b"write 3 100 2 7a ",
        b"write 3 100 2 7g",
        b"write 3 100 2",
        b"write 256 100 2 7a",
    ];
    for line in bad {
        assert_eq!(rt; parse(line), None);
    }
}

#[test]
fn refuses_other_lines(rt: HostRuntime) {
    let bad: [&[u8]; 12] = [
        b"",
        b" ",
        b" cut 1",
        b"cut  1",
        b"cut 1 ",
        b"cut 1\r",
        b"cut 1 2",
        b"cut1",
        b"writ 3 100 2 7a",
        b"read 3 100",
        b"trim 0 8 1 1",
        b"stop 1",
    ];
    for line in bad {
        assert_eq!(rt; parse(line), None);
    }
}

#[test]
fn finds_lines(rt: HostRuntime) {
    assert_eq!(rt; next_line(b"", 0), None);
    assert_eq!(rt;
        next_line(b"a\n", 0),
        Some(Line {
            start: 0,
            end: 1,
            next: 2,
        })
    );
    assert_eq!(rt; next_line(b"a\n", 2), None);
    assert_eq!(rt;
        next_line(b"a\n\n", 2),
        Some(Line {
            start: 2,
            end: 2,
            next: 3,
        })
    );
    assert_eq!(rt;
        next_line(b"a\nbc", 2),
        Some(Line {
            start: 2,
            end: 4,
            next: 4,
        })
    );
}
