//! Texts, lines, names and codes.
use elem_core::{
    CODE_BITS, Code, DEEPEST, Element, LEVELS, Line, MAX_LINE, Name, NoMemory, Num, Probe, Stored,
    Text, Texts, digit, fnv32, fnv64, is_name, masked, text_of,
};
use std::alloc::{AllocError, AllocFailed, Global};
use std::cmp::Ordering;
use std::test::Fail;

// Vectors of FNV-1a with 64 bits, with the digits of the two lowest depths.
const CODES: [(&str, Code, u32, u32); 7] = [
    ("", 0xcbf2_9ce4_8422_2325, 5, 25),
    ("a", 0xaf63_dc4c_8601_ec8c, 12, 4),
    ("b", 0xaf63_df4c_8601_f1a5, 5, 13),
    ("A", 0xaf63_fc4c_8602_22ec, 12, 23),
    ("foobar", 0x8594_4171_f739_67e8, 8, 31),
    ("7mohtcOFVz", 0x184a_de9a_9619_53a2, 2, 29),
    ("c1E51sSEyx", 0x184a_de9a_9619_53a2, 2, 29),
];

// Codes, and what so many bits of them are.
const MASKED: [(Code, u32, Code); 5] = [
    (0xaf63_dc4c_8601_ec8c, 5, 12),
    (0xaf63_fc4c_8602_22ec, 5, 12),
    (0xaf63_dc4c_8601_ec8c, 0, 0),
    (0xaf63_dc4c_8601_ec8c, 40, 0x4c_8601_ec8c),
    (0xaf63_dc4c_8601_ec8c, CODE_BITS, 0xaf63_dc4c_8601_ec8c),
];

#[test]
fn codes_are_those_of_fnv_1a(rt: HostRuntime) {
    for (text, code, first, second) in CODES {
        assert!(rt; fnv64(text.as_bytes()) == code, "of {text:?}");
        assert!(rt;
            digit(code, 0) == first && digit(code, 1) == second,
            "of {text:?}"
        );
    }
}

#[test]
fn codes_are_masked(rt: HostRuntime) {
    for (code, bits, low) in MASKED {
        assert!(rt; bits <= CODE_BITS);
        assert!(rt; masked(code, bits) == low, "by {bits}");
    }
    for depth in 1..LEVELS {
        assert!(rt;
            digit(masked(0xaf63_dc4c_8601_ec8c, 5), depth) == 0,
            "at {depth}"
        );
    }
    assert!(rt; digit(0xaf63_dc4c_8601_ec8c, DEEPEST) == 10);
}

// Vectors of FNV-1a with 32 bits, the codes of documents of version 1.
const OLD_CODES: [(&str, u32); 5] = [
    ("", 0x811c_9dc5),
    ("a", 0xe40c_292c),
    ("b", 0xe70c_2de5),
    ("A", 0xc40b_f6cc),
    ("foobar", 0xbf9c_f968),
];

#[test]
fn old_codes_are_those_of_fnv_1a(rt: HostRuntime) {
    for (text, code) in OLD_CODES {
        assert!(rt; fnv32(text.as_bytes()) == code, "of {text:?}");
    }
}

// Texts, and whether each is a name.
const NAMES: [(&str, bool); 11] = [
    ("", false),
    ("a", true),
    ("Z9._-", true),
    ("_", true),
    (".x", false),
    ("-x", false),
    ("a b", false),
    ("a\n", false),
    ("\u{e9}", false),
    (
        "0123456789012345678901234567890123456789012345678901234567890123",
        true,
    ),
    (
        "01234567890123456789012345678901234567890123456789012345678901234",
        false,
    ),
];

#[test]
fn names_are_tested(rt: HostRuntime) {
    for (text, named) in NAMES {
        assert!(rt; is_name(text) == named, "of {text:?}");
        assert!(rt; Name::new(text).is_some() == named, "of {text:?}");
    }
}

// Texts, and whether each fits in a cell. One of at most 30 bytes lies in its value, and a longer one apart.
const CELLS: [(&str, bool); 6] = [
    ("", true),
    ("two words \u{e9}", true),
    ("thirty bytes, which are few \u{e9}", true),
    ("one byte more than thirty of \u{e9}", true),
    ("a\nb", false),
    ("a\nb, in more than thirty bytes...", false),
];

// Whether the string of this text becomes a text where it fits, and is given back where it does not.
fn is_made_or_given_back(text: &str, string: String, fits: bool) -> bool {
    match Text::from_text(string) {
        Ok(made) => fits && made.text() == text,
        Err(back) => !fits && back.as_str() == text,
    }
}

#[test]
fn lines_and_texts_are_cells(rt: HostRuntime) -> Result<(), Fail> {
    for (text, fits) in CELLS {
        assert!(rt; Line::new(text).is_some() == fits, "of {text:?}");
        assert!(rt; Text::fits(text) == fits, "of {text:?}");
        let string = String::from_str(rt.alloc(), text)?;
        assert!(rt; is_made_or_given_back(text, string, fits), "of {text:?}");
    }
    Ok(())
}

// A line of the greatest length.
fn longest_line(alloc: Global) -> Result<String, Fail> {
    let mut line = String::new(alloc);
    for _ in 0..MAX_LINE {
        line.push('x')?;
    }
    Ok(line)
}

#[test]
fn lines_end_at_the_greatest_length(rt: HostRuntime) -> Result<(), Fail> {
    let mut line = longest_line(rt.alloc())?;
    assert!(rt; Line::new(&line).is_some());
    line.push('x')?;
    assert!(rt; Line::new(&line).is_none());
    assert!(rt; Text::new(line).is_err());
    Ok(())
}

// The order and the code that a probe answers, through the bounds alone.
fn order_and_code<T: Element, P: Probe<T>>(probe: &P, other: &T) -> (Ordering, Code, Code) {
    (probe.order(other), Probe::code(probe), Element::code(other))
}

#[test]
fn probes_answer_for_their_values(rt: HostRuntime) -> Result<(), Fail> {
    let name = Name::new("b").ok_or("a name")?;
    let line = Line::new("a b").ok_or("a line")?;
    let text = text_of(rt.alloc(), line)?;
    let same = text_of(rt.alloc(), name.as_line())?;
    assert!(rt; text.text() == line.as_str() && same.text() == name.as_str());
    let (order, probe, value) = order_and_code(&name, &same);
    assert!(rt; order == Ordering::Equal && probe == value);
    let (order, probe, value) = order_and_code(&text, &same);
    assert!(rt; order == Ordering::Less && probe != value);
    let (order, probe, value) = order_and_code(&Num(7), &Num(3));
    assert!(rt; order == Ordering::Greater && probe == 7 && value == 3);
    Ok(())
}

#[test]
fn want_of_memory_prints_one_text(rt: HostRuntime) -> Result<(), Fail> {
    let bare = format!(in rt.alloc(); "{}", NoMemory::from(AllocError))?;
    let with_value = format!(in rt.alloc(); "{}", NoMemory::from(AllocFailed { value: 1u8 }))?;
    assert!(rt; bare.as_str() == "out of memory" && with_value.as_str() == "out of memory");
    Ok(())
}

#[test]
fn texts_keep_their_vector(rt: HostRuntime) -> Result<(), Fail> {
    let mut lines = Vec::new(rt.alloc());
    for line in ["one", "", "two"] {
        lines.push(text_of(rt.alloc(), Line::new(line).ok_or("a line")?)?)?;
    }
    let kept = Texts::from_vec(lines).into_vec();
    let wanted = ["one", "", "two"];
    assert!(rt; kept.len() == wanted.len());
    for (text, want) in kept.iter().zip(wanted) {
        assert!(rt; text.text() == want);
    }
    Ok(())
}
