// Lines of traces: those of the base image, the shortest and the longest, each with what is left behind it.
use long_names::Name;
use loom_words::trace_line;

/// A bytecode of a trace: its number, the name of the active context, the place in the method, the byte, and its line.
struct Traced {
    k: u32,
    context: u32,
    ip: u32,
    byte: u8,
    line: &'static str,
}

// The first four bytecodes of the base image, and both ends of each number.
const TRACES: &[Traced] = &[
    Traced {
        k: 1,
        context: 66,
        ip: 2,
        byte: 112,
        line: "1 66 2 112\n",
    },
    Traced {
        k: 2,
        context: 66,
        ip: 3,
        byte: 135,
        line: "2 66 3 135\n",
    },
    Traced {
        k: 3,
        context: 66,
        ip: 4,
        byte: 163,
        line: "3 66 4 163\n",
    },
    Traced {
        k: 4,
        context: 66,
        ip: 2,
        byte: 112,
        line: "4 66 2 112\n",
    },
    Traced {
        k: 0,
        context: 2,
        ip: 0,
        byte: 0,
        line: "0 2 0 0\n",
    },
    Traced {
        k: u32::MAX,
        context: u32::MAX - 1,
        ip: u32::MAX,
        byte: u8::MAX,
        line: "4294967295 4294967294 4294967295 255\n",
    },
];

// The line stands in front, its length is answered, and behind it nothing is written.
fn is_right(row: &Traced) -> bool {
    let Some(context) = Name::new(row.context) else {
        return false;
    };
    let mut out = [b'#'; 40];
    let len = trace_line(row.k, context, row.ip, row.byte, &mut out) as usize;
    let (front, rest) = out.split_at(len.min(40));
    front == row.line.as_bytes() && rest.iter().all(|byte| *byte == b'#')
}

#[test]
fn lines_of_traces(rt: HostRuntime) {
    assert_eq!(rt; TRACES.iter().position(|row| !is_right(row)), None);
}
