use psac_script::{Command, FormRefused, read_command};

#[test]
fn lines_that_are_commands(rt: HostRuntime) {
    let rows = [
        (b"".as_slice(), Command::Skip),
        (b"#", Command::Skip),
        (b"# set 0 0 5", Command::Skip),
        (b"commit", Command::Commit),
        (b"show", Command::Show),
        (b"tree", Command::Tree),
        (b"quit", Command::Quit),
        (b"rows 007", Command::Rows { count: 7 }),
        (b"held 999999999", Command::Held { place: 999_999_999 }),
        (b"hold 0 out 1", Command::HoldOut { place: 0, out: 1 }),
        (
            b"hold 1 ref 0",
            Command::HoldRef {
                place: 1,
                source: 0,
            },
        ),
        (
            b"hold 2 fst 1",
            Command::HoldFst {
                place: 2,
                source: 1,
            },
        ),
        (
            b"hold 3 snd 1",
            Command::HoldSnd {
                place: 3,
                source: 1,
            },
        ),
    ];
    for (line, command) in rows {
        assert_eq!(rt; read_command(line), Ok(command));
    }
}

#[test]
fn fields_of_set(rt: HostRuntime) {
    let rows = [
        (b"set 3 4 5".as_slice(), b"5".as_slice()),
        (b"set 3 4 ", b""),
        (b"set 3 4  ", b" "),
        (b"set 3 4 a b # c", b"a b # c"),
        (b"set 3 4 \xff", b"\xff"),
    ];
    for (line, field) in rows {
        let row = 3;
        let col = 4;
        assert_eq!(rt; read_command(line), Ok(Command::Set { row, col, field }));
    }
}

#[test]
fn lines_that_are_refused(rt: HostRuntime) {
    let rows = [
        b" ".as_slice(),
        b" commit",
        b"commit ",
        b"Commit",
        b"sho",
        b"set",
        b"set 0 0",
        b"set  0 0 5",
        b"set 0 x 5",
        b"set -1 0 5",
        b"set 0000000000 0 5",
        b"rows",
        b"rows ",
        b"rows 1 ",
        b"held 1234567890",
        b"hold 0 out",
        b"hold 0 out 1 ",
        b"hold 0 in 1",
        b"quit 0",
    ];
    for line in rows {
        assert_eq!(rt; read_command(line), Err(FormRefused));
    }
}
