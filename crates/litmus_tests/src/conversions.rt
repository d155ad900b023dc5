//! The rows of worked tests, as texts.
use convert_rows::conversion;
use profile_check::check;
use report_text::convert_text;
use seq_conv::Sequences;
use std::alloc::Global;
use std::test::Fail;
use worked_texts::{SB, test_of};

/// Two threads that store to one location, and one that reads it.
const TWO_WRITERS: &str =
    "X86 W2\n{ }\n P0 | P1 | P2 ;\n MOV [x],$1 | MOV [x],$2 | MOV EAX,[x] ;\nexists (2:EAX=2)\n";

/// An exchange, which has a line of each kind, and a reader.
const EXCHANGE: &str =
    "X86 XCHG\n{ }\n P0 | P1 ;\n MOV EAX,$1 | MOV EAX,[x] ;\n XCHG [x],EAX | ;\nexists (1:EAX=1)\n";

/// Each test, and the text of its conversion.
const CONVERSIONS: [(&str, &str); 3] = [
    (
        TWO_WRITERS,
        "Test W2\nThreads 3\nStore P0 0 x value 2*n+1\nStore P1 0 x value 2*n+2\nRead P2 0 x column 0\nAtom 1 rf P2 column 0 from P1: value >= 2*m+2, value mod 2 = 0\n",
    ),
    (
        SB,
        "Test SB\nThreads 2\nStore P0 0 x value 1*n+1\nStore P1 0 y value 1*n+1\nRead P0 1 y column 0\nRead P1 1 x column 0\nAtom 1 fr P0 column 0 from P1: value < 1*m+1\nAtom 2 fr P1 column 0 from P0: value < 1*m+1\n",
    ),
    (
        EXCHANGE,
        "Test XCHG\nThreads 2\nStore P0 0 x value 1*n+1\nRead P0 0 x column 0\nRead P1 0 x column 0\nAtom 1 exact P1 column 0 from P0: value = 1*m+1\n",
    ),
];

/// The text of a test's conversion.
fn converted(alloc: Global, text: &str) -> Result<String, Fail> {
    let test = test_of(alloc, text).ok_or("it is a test")?;
    let checked = check(alloc, test)?;
    let sequences = Sequences::of(alloc, checked.test())?;
    let rows = conversion(alloc, &checked, &sequences)?;
    let text = convert_text(alloc, &rows)?;
    Ok(text)
}

#[test]
fn conversions_are_the_texts_of_the_format(rt: HostRuntime) -> Result<(), Fail> {
    for (test, want) in CONVERSIONS {
        assert_eq!(rt; converted(rt.alloc(), test)?.as_str(), want);
    }
    Ok(())
}
