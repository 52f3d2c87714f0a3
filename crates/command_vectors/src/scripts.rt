//! Scripts that come in pieces, and the logs that they must print, worked out by hand. The built program runs many more, whole.
use crate::fakes::Giver;
use commands::{SimFault, scripts_are_read, sim_text};
use std::alloc::Global;
use std::test::Fail;

/// The lines of a script, and what each prints: nothing for the config line.
type Lines<'a> = &'a [(&'a str, &'a str)];

const CONFIG: (&str, &str) = ("config 1 5 8 8 100 20 3 2", "");

/// Puts a line with its line feed at the end of a text.
fn push_line(text: &mut Vec<u8>, line: &str) -> Result<(), Fail> {
    text.extend_from_slice(line.as_bytes())?;
    Ok(text.push(b'\n')?)
}

/// The script, its log and the number of its events.
fn texts(alloc: Global, lines: Lines) -> Result<(Vec<u8>, Vec<u8>, u64), Fail> {
    let (mut script, mut log) = (Vec::new(alloc), Vec::new(alloc));
    let mut events = 0u64;
    for (line, prints) in lines {
        push_line(&mut script, line)?;
        if !prints.is_empty() {
            push_line(&mut log, prints)?;
            events = events.saturating_add(1);
        }
    }
    Ok((script, log, events))
}

/// Runs a script that comes in pieces of each of a few sizes, and compares what it prints.
fn shows(rt: &HostRuntime, lines: Lines) -> Result<(), Fail> {
    let (script, log, events) = texts(rt.alloc(), lines)?;
    for piece in [1, 2, 3, 7, 512, 4096] {
        let mut input = Giver {
            octets: script.as_slice(),
            piece,
            fails: 0,
        };
        let mut output = Vec::new(rt.alloc());
        let outcome = sim_text(rt.alloc(), &mut input, &mut output);
        if outcome != Ok(events) || output.as_slice() != log.as_slice() {
            return Err(Fail::new("the log differs"));
        }
    }
    Ok(())
}

#[test]
fn the_first_script(rt: HostRuntime) -> Result<(), Fail> {
    scripts_are_read();
    shows(
        &rt,
        &[
            CONFIG,
            (
                "S 100 1 0 aa - -",
                "sent 65537 0 80e000010000006411111111aa",
            ),
            ("D 0 0", "taken 65537 0"),
            ("P 0", "play 65537 100 1 aa - -"),
        ],
    )
}

/// An event of each kind, and an answer of each.
#[test]
fn every_event(rt: HostRuntime) -> Result<(), Fail> {
    shows(
        &rt,
        &[
            CONFIG,
            (
                "S 100 1 3 aa 00000007 beef00000001",
                "sent 65537 0 b1e00001000000641111111100000007beef000100000001aa000003",
            ),
            ("S 0 0 1 - - -", "refused 44"),
            ("S 0 0 0 bb - -", "sent 65538 1 806000020000000011111111bb"),
            ("S 0 0 0 cc - -", "sent 65539 2 806000030000000011111111cc"),
            ("D 0 0", "taken 65537 0"),
            ("D 2 5", "taken 65539 0"),
            ("A 5", "ask 3 81cd0003333333331111111100020000"),
            ("A 5", "ask none"),
            ("D 3 6", "marked 1"),
            ("I s - 6", "refused 11"),
            ("R", "repair 65538 4 8061000500000000222222220002bb"),
            ("R", "repair none"),
            ("P 6", "play 65537 100 1 aa 00000007 beef00000001"),
            ("P 105", "gap 65538"),
            ("D 4 106", "refused 35"),
            ("D 9 106", "nothing"),
            ("I r 806000040000000011111111ee 106", "taken 65540 0"),
            ("P 106", "play 65539 0 0 cc - -"),
            ("P 106", "play 65540 0 0 ee - -"),
            ("P 106", "wait"),
        ],
    )
}

#[test]
fn a_config_line_alone(rt: HostRuntime) -> Result<(), Fail> {
    shows(&rt, &[CONFIG])
}

/// Runs a script that is refused, and tells the line and what was printed before it.
fn refused(alloc: Global, script: &[u8]) -> Result<(u64, Vec<u8>), Fail> {
    let mut input = Giver {
        octets: script,
        piece: 5,
        fails: 0,
    };
    let mut output = Vec::new(alloc);
    match sim_text(alloc, &mut input, &mut output) {
        Err(SimFault::BadLine(line)) => Ok((line, output)),
        _ => Err(Fail::new("the script should be refused")),
    }
}

#[test]
fn bad_lines(rt: HostRuntime) -> Result<(), Fail> {
    let scripts: [(&[u8], u64, &[u8]); 6] = [
        (b"", 1, b""),
        (b"P 0\n", 1, b""),
        (b"config 1 5 8 8 100 20 3 2", 1, b""),
        (b"config 1 5 8 8 100 20 3 2\nP 0\nQ\n", 3, b"wait\n"),
        (b"config 1 5 8 8 100 20 3 2\nP 0\n\nP 0\n", 3, b"wait\n"),
        (b"config 1 5 8 8 100 20 3 2\nP 0\nP 0", 3, b"wait\n"),
    ];
    for (script, line, prints) in scripts {
        let (told, printed) = refused(rt.alloc(), script)?;
        assert_eq!(rt; told, line);
        assert_eq!(rt; printed.as_slice(), prints);
    }
    Ok(())
}

#[test]
fn a_line_of_4097_octets(rt: HostRuntime) -> Result<(), Fail> {
    let mut script = Vec::new(rt.alloc());
    push_line(&mut script, CONFIG.0)?;
    push_line(&mut script, "P 0")?;
    for _ in 0..4097 {
        script.push(b'S')?;
    }
    // Refused before its line feed was seen, and also with it.
    for _ in 0..2 {
        let (line, printed) = refused(rt.alloc(), script.as_slice())?;
        assert_eq!(rt; line, 3);
        assert_eq!(rt; printed.as_slice(), b"wait\n".as_slice());
        script.push(b'\n')?;
    }
    Ok(())
}
