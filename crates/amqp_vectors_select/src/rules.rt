//! Words and what they are as rules, and each call on rules once.

use amqp_frame::{AMQPFrame, AMQPFrameType, AMQPRawFrame, FrameOutline, judge_frame, release};
use amqp_select::{
    RuleError, Rules, covered_rules_decide_nothing, equal_rule_errors, equal_rules,
    words_spell_one_rule,
};
use amqp_types::ByteArray;
use std::alloc::Global;
use std::test::Fail;

/// The rules that these words stand for.
pub fn parse(alloc: Global, words: &[&str]) -> Result<Rules, RuleError> {
    let mut all = Vec::new(alloc);
    for word in words {
        match String::from_str(alloc, word) {
            Ok(word) => all.push(word)?,
            Err(_) => return Err(RuleError::NoMemory),
        }
    }
    Rules::parse(alloc, all.as_slice())
}

/// How many rules these words are, or why none.
fn count(alloc: Global, words: &[&str]) -> Result<usize, RuleError> {
    Ok(parse(alloc, words)?.len())
}

/// A protocol header, two methods, two content headers, a body, and two heartbeats.
const OUTLINES: &[FrameOutline] = &[
    FrameOutline::ProtocolHeader,
    FrameOutline::Method {
        channel_id: 1,
        class_id: 60,
        method_id: 40,
    },
    FrameOutline::Method {
        channel_id: 65535,
        class_id: 10,
        method_id: 40,
    },
    FrameOutline::Header {
        channel_id: 1,
        class_id: 60,
        body_size: 5,
    },
    FrameOutline::Header {
        channel_id: 2,
        class_id: 40,
        body_size: 0,
    },
    FrameOutline::Body {
        channel_id: 5,
        length: 60,
    },
    FrameOutline::Heartbeat { channel_id: 0 },
    FrameOutline::Heartbeat { channel_id: 7 },
];

/// Rules, and which of the frames they keep.
const ROWS: &[(&[&str], [u8; 8])] = &[
    (&["keep"], [1, 1, 1, 1, 1, 1, 1, 1]),
    (&["drop"], [0, 0, 0, 0, 0, 0, 0, 0]),
    (&["keep,channel=0"], [1, 0, 0, 0, 0, 0, 1, 0]),
    (&["keep,channel=5-5"], [0, 0, 0, 0, 0, 1, 0, 0]),
    (&["keep,channel=2-7"], [0, 0, 0, 0, 1, 1, 0, 1]),
    (&["keep,channel=65535"], [0, 0, 1, 0, 0, 0, 0, 0]),
    (&["keep,kind=proto"], [1, 0, 0, 0, 0, 0, 0, 0]),
    (&["keep,kind=method"], [0, 1, 1, 0, 0, 0, 0, 0]),
    (&["keep,kind=header"], [0, 0, 0, 1, 1, 0, 0, 0]),
    (&["keep,kind=body"], [0, 0, 0, 0, 0, 1, 0, 0]),
    (&["keep,kind=beat"], [0, 0, 0, 0, 0, 0, 1, 1]),
    (&["keep,class=60"], [0, 1, 0, 1, 0, 0, 0, 0]),
    (&["keep,method=40"], [0, 1, 1, 0, 0, 0, 0, 0]),
    (
        &["keep,channel=1-9,kind=method,class=60,method=40"],
        [0, 1, 0, 0, 0, 0, 0, 0],
    ),
    (
        &["keep,channel=1,kind=header,class=40"],
        [0, 0, 0, 0, 0, 0, 0, 0],
    ),
    (
        &["drop,kind=method", "keep,channel=1"],
        [0, 0, 0, 1, 0, 0, 0, 0],
    ),
    (
        &["keep,channel=1", "drop,kind=method"],
        [0, 1, 0, 1, 0, 0, 0, 0],
    ),
    (
        &["drop,channel=1", "keep,class=60", "keep,kind=beat"],
        [0, 0, 0, 0, 0, 0, 1, 1],
    ),
];

/// For each of the frames 1 where rules keep it, and else 0.
fn kept_by(rules: &Rules) -> [u8; 8] {
    let mut kept = [0; 8];
    for (place, outline) in OUTLINES.iter().enumerate() {
        if place < kept.len() {
            kept[place] = u8::from(rules.decide_outline(*outline));
        }
    }
    kept
}

#[test]
fn first_matching_rule_decides(rt: HostRuntime) -> Result<(), Fail> {
    for (words, kept) in ROWS {
        let rules = parse(rt.alloc(), words)?;
        assert_eq!(rt; kept_by(&rules), *kept);
    }
    Ok(())
}

/// Words that are no rules.
const NO_RULES: &[&str] = &[
    "",
    ",",
    "Keep",
    "KEEP",
    "keeps",
    "drop ",
    " drop",
    "keep,",
    "keep,,kind=body",
    "keep;kind=body",
    "keep,kind=",
    "keep,kind=Body",
    "keep,kind=heartbeat",
    "keep,kind=bodykind=body",
    "keep,channel=",
    "keep,channel=65536",
    "keep,channel=00",
    "keep,channel=01",
    "keep,channel=+1",
    "keep,channel=2-1",
    "keep,channel=1-",
    "keep,channel=-1",
    "keep,channel=1-2-3",
    "keep,class=060",
    "keep,class=60,kind=body",
    "keep,class=60,class=60",
    "keep,method=40,",
];

/// Words that are rules or are not, by how many there are.
const COUNTS: &[(&[&str], Result<usize, RuleError>)] = &[
    (&[], Err(RuleError::Count)),
    (&["drop"], Ok(1)),
    (&["drop"; 64], Ok(64)),
    (&["drop"; 65], Err(RuleError::Count)),
    (&["none"; 65], Err(RuleError::Count)),
];

#[test]
fn other_words_are_no_rules(rt: HostRuntime) {
    for word in NO_RULES {
        let found = count(rt.alloc(), &["keep", word, "none"]);
        assert_eq!(rt; found, Err(RuleError::Malformed { place: 1 }), "{word}");
    }
    for (words, outcome) in COUNTS {
        assert_eq!(rt; count(rt.alloc(), words), *outcome);
    }
}

/// Rules, and which earlier rule covers the last.
const COVERED: &[(&[&str], Option<usize>)] = &[
    (&["keep"], None),
    (&["keep", "keep,kind=beat"], Some(0)),
    (&["keep,kind=beat", "keep"], None),
    (&["drop,channel=1-5", "keep,channel=5"], Some(0)),
    (&["drop,channel=1-5", "keep,channel=5-6"], None),
    (&["drop,channel=5", "keep,channel=5-5"], Some(0)),
    (&["drop,class=60", "keep,class=60,method=40"], Some(0)),
    (
        &["drop,class=60", "keep,method=40", "keep,class=60,method=40"],
        Some(0),
    ),
    (
        &[
            "drop,class=60",
            "keep,method=60",
            "keep,kind=body",
            "keep,kind=body",
        ],
        Some(2),
    ),
];

/// Whether rules keep a frame, and how many of a list of it alone.
fn keep(rules: &Rules, frame: AMQPFrame) -> (bool, usize) {
    let kept = rules.decide(&frame);
    let count = [&frame].iter().filter(|it| rules.decide(*it)).count();
    release(frame);
    (kept, count)
}

/// Whether rules keep a borrowed frame on channel 1, where its payload is whole.
fn keep_borrowed(rules: &Rules, frame_type: AMQPFrameType, payload: &[u8]) -> Option<bool> {
    let raw = AMQPRawFrame {
        frame_type,
        channel_id: 1,
        payload,
    };
    match judge_frame(raw) {
        Ok(_) => Some(rules.decide(raw)),
        Err(_) => None,
    }
}

#[test]
fn whatever_has_an_outline_is_decided(rt: HostRuntime) -> Result<(), Fail> {
    let rules = parse(rt.alloc(), &["drop,kind=body", "keep"])?;
    assert!(rt; keep(&rules, AMQPFrame::Heartbeat) == (true, 1));
    assert!(rt; keep(&rules, AMQPFrame::Body(1, ByteArray::empty(rt.alloc()))) == (false, 0));
    assert_eq!(rt;
        keep_borrowed(&rules, AMQPFrameType::Body, b"hello"),
        Some(false)
    );
    assert_eq!(rt;
        keep_borrowed(&rules, AMQPFrameType::Heartbeat, &[]),
        Some(true)
    );
    assert_eq!(rt;
        keep_borrowed(&rules, AMQPFrameType::Method, &[0, 60]),
        None
    );
    Ok(())
}

#[test]
fn earlier_rules_cover(rt: HostRuntime) -> Result<(), Fail> {
    let alloc = rt.alloc();
    for (words, wanted) in COVERED {
        let rules = parse(alloc, words)?;
        if !words.is_empty() && rules.len() == words.len() {
            assert_eq!(rt; rules.covered_by(words.len() - 1), *wanted);
        }
    }
    let rules = parse(alloc, &["keep", "keep,kind=beat"])?.without_covered(alloc)?;
    assert_eq!(rt; rules.len(), 1);
    assert!(rt; keep(&rules, AMQPFrame::Body(1, ByteArray::new(alloc, b"hello")?)).0);
    covered_rules_decide_nothing();
    words_spell_one_rule();
    Ok(())
}

/// Errors with their texts.
const ERRORS: &[(RuleError, &str)] = &[
    (RuleError::Count, "Count"),
    (RuleError::Malformed { place: 12 }, "Malformed at 12"),
    (RuleError::NoMemory, "NoMemory"),
];

#[test]
fn errors_have_texts(rt: HostRuntime) -> Result<(), Fail> {
    for (error, text) in ERRORS {
        assert_eq!(rt; format!(in rt.alloc(); "{error}")?.as_str(), *text);
        assert!(rt; equal_rule_errors(error, error));
    }
    Ok(())
}

/// Two lists of words, and whether they are the same rules.
const PAIRS: &[(&[&str], &[&str], bool)] = &[
    (&["keep"], &["keep"], true),
    (&["keep"], &["drop"], false),
    (&["keep", "keep"], &["keep"], false),
    (
        &["drop,channel=1", "keep"],
        &["drop,channel=1", "keep"],
        true,
    ),
    (
        &["drop,channel=1", "keep"],
        &["keep", "drop,channel=1"],
        false,
    ),
    (&["keep,kind=body"], &["keep,kind=beat"], false),
    (&["keep,class=60"], &["keep,method=60"], false),
    (&["keep,channel=5"], &["keep,channel=5-5"], false),
];

/// Whether two lists of words are the same rules.
fn are_equal(alloc: Global, a: &[&str], b: &[&str]) -> Result<bool, RuleError> {
    let a = parse(alloc, a)?;
    let b = parse(alloc, b)?;
    Ok(a == b && equal_rules(&a, &b))
}

#[test]
fn rules_are_equal_in_their_order(rt: HostRuntime) -> Result<(), Fail> {
    for (a, b, wanted) in PAIRS {
        assert_eq!(rt; are_equal(rt.alloc(), a, b)?, *wanted);
    }
    Ok(())
}
