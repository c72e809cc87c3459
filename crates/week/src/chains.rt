// Chains of 100,001 stations, one whose stations have exponents of three widths, and chains that are refused, each with the station, and with what the lent bytes hold then.
use crate::formats::{RECORDS, TWO_RECORDS};
use crate::{formats, print};
use lexical_rewrite::{RECORD_SIZE, chain_float};
use lexical_rewrite_spec::TextFormat;
use lexical_write_float::LONGEST_TEXT;
use std::io;

// Records of 100,000 stations.
const LONG: usize = 100_000 * RECORD_SIZE;

// Apart, since no proof is to look at so many bytes.
fn space() -> [u8; LONG] {
    [0; LONG]
}

// Thursday's record and Wednesday's in turn.
fn fill(records: &mut [u8]) {
    for pair in records.chunks_exact_mut(TWO_RECORDS) {
        pair.copy_from_slice(&RECORDS);
    }
}

// A text, the same with a sign, and minus zero's.
fn long(rt: &impl Print) -> io::Result<()> {
    let mut records = space();
    fill(&mut records);
    for text in ["1.921FB54442D18p1", "-1.921FB54442D18p1", "-0.0p0"] {
        let mut out = [0; LONGEST_TEXT];
        let first = formats::wednesday();
        let answer = chain_float::<f64>(
            text.as_bytes(),
            formats::tuesday(),
            first,
            &records,
            &mut out,
        );
        print!(rt; "100001 stations: ")?;
        print::chained(rt, answer, &out)?;
        println!(rt; "")?;
    }
    Ok(())
}

// The text of 1,024, read under a format of width 0, which a reading ignores.
fn widened(rt: &impl Print, name: &str, further: &[u8]) -> io::Result<()> {
    let mut out = [0; LONGEST_TEXT];
    let from = formats::widened(formats::tuesday(), 0);
    let first = formats::widened(formats::wednesday(), 4);
    let answer = chain_float::<f64>(b"4.0p8", from, first, further, &mut out);
    print!(rt; "{name}: ")?;
    print::chained(rt, answer, &out)?;
    println!(rt; "")
}

// Widths 4, 1 and 3: what stands behind each of the stations.
fn widths(rt: &impl Print) -> io::Result<()> {
    widened(rt, "width 4", b"")?;
    widened(rt, "widths 4 and 1", &RECORDS[..RECORD_SIZE])?;
    widened(rt, "widths 4, 1 and 3", &RECORDS)
}

// `<name>: <refusal>`, and whether the chain left every byte that was lent as it was.
fn refused(
    rt: &impl Print,
    name: &str,
    text: &str,
    first: TextFormat,
    further: &[u8],
    out: &mut [u8],
) -> io::Result<()> {
    let answer = chain_float::<f64>(text.as_bytes(), formats::tuesday(), first, further, out);
    print!(rt; "{name}: ")?;
    print::chained(rt, answer, out)?;
    if out.iter().all(|byte| *byte == 0) {
        println!(rt; ", and every byte as it was")
    } else {
        println!(rt; ", and changed a byte")
    }
}

// Texts that are refused, for their signs, and behind their sign.
const TEXTS: [(&str, &str); 10] = [
    ("no text", ""),
    ("a wrong byte", "1.8q0"),
    ("an exponent of 32,768", "1p+32768"),
    ("too large", "1p1024"),
    ("a sign alone", "-"),
    ("two signs", "--1"),
    ("a plus sign", "+1"),
    ("a wrong byte behind a sign", "-1.8q0"),
    ("a sign and an exponent of 32,768", "-1p+32768"),
    ("a sign, and too large", "-1p1024"),
];

// A text that is refused.
fn refused_texts(rt: &impl Print, out: &mut [u8]) -> io::Result<()> {
    for (name, text) in TEXTS {
        refused(rt, name, text, formats::wednesday(), &RECORDS, out)?;
    }
    Ok(())
}

// A first station whose format is refused.
fn refused_formats(rt: &impl Print, out: &mut [u8]) -> io::Result<()> {
    let limited = formats::limited(1201);
    refused(rt, "1,201 digits", "1.8p0", limited, &RECORDS, out)?;
    let narrow = formats::widened(formats::wednesday(), 0);
    refused(rt, "width 0", "1.8p0", narrow, &RECORDS, out)
}

// The first bytes of the records.
fn refused_records(rt: &impl Print, out: &mut [u8]) -> io::Result<()> {
    let first = formats::wednesday();
    let behind_base = &RECORDS[..RECORD_SIZE + 2];
    refused(
        rt,
        "a record cut off behind its base",
        "1.8p0",
        first,
        behind_base,
        out,
    )?;
    let before_mark = &RECORDS[..RECORD_SIZE - 1];
    refused(
        rt,
        "a record cut off before its mark",
        "1.8p0",
        first,
        before_mark,
        out,
    )
}

// A text a byte longer than the bytes lent, and one whose sign they have no room for.
fn refused_rooms(rt: &impl Print) -> io::Result<()> {
    let first = formats::wednesday();
    let further = &RECORDS[..RECORD_SIZE];
    refused(
        rt,
        "a buffer a byte too short",
        "1.8p0",
        first,
        further,
        &mut [0; 2],
    )?;
    refused(
        rt,
        "a buffer without room for a sign",
        "-1.8p0",
        first,
        further,
        &mut [0; 3],
    )
}

pub(crate) fn run(rt: &impl Print) -> io::Result<()> {
    long(rt)?;
    widths(rt)?;
    let mut out = [0; LONGEST_TEXT];
    refused_texts(rt, &mut out)?;
    refused_formats(rt, &mut out)?;
    refused_records(rt, &mut out)?;
    refused_rooms(rt)
}
