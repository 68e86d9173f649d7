//! Generated pipelines against texts by hand.
use bd_gen::design_text;
use std::process::Abort;

const DEPTH_2: &str = "(pipeline
 (function inc 1)
 (function src 1)
 (function dst 1)
 (function op 1)
 (function alu 2)
 (latch pc word)
 (memory rf)
 (latch o word)
 (latch a word)
 (latch v2 bool)
 (latch d2 word)
 (input stall bool true)
 (let s word (src pc))
 (let r2 word (alu o a))
 (let q3 word (read rf s))
 (let q2 word (ite (and v2 (= d2 s)) r2 q3))
 (next pc (ite stall pc (inc pc)))
 (next rf (ite v2 (write rf d2 r2) rf))
 (next o (op pc))
 (next a q2)
 (next v2 (not stall))
 (next d2 (dst pc))
 (flush 1)
 (steps 1))
";

/// Depth 3 with path 2 left out, the one from stage 3.
const DEPTH_3_DROP_2: &str = "(pipeline
 (function inc 1)
 (function src 1)
 (function dst 1)
 (function op 1)
 (function alu 2)
 (latch pc word)
 (memory rf)
 (latch o word)
 (latch a word)
 (latch v2 bool)
 (latch d2 word)
 (latch v3 bool)
 (latch d3 word)
 (latch x3 word)
 (input stall bool true)
 (let s word (src pc))
 (let r2 word (alu o a))
 (let r3 word x3)
 (let q4 word (read rf s))
 (let q3 word q4)
 (let q2 word (ite (and v2 (= d2 s)) r2 q3))
 (next pc (ite stall pc (inc pc)))
 (next rf (ite v3 (write rf d3 r3) rf))
 (next o (op pc))
 (next a q2)
 (next v2 (not stall))
 (next d2 (dst pc))
 (next v3 v2)
 (next d3 d2)
 (next x3 r2)
 (flush 2)
 (steps 1))
";

const SPECIFICATION: &str = "(specification
 (function inc 1) (function src 1) (function dst 1) (function op 1) (function alu 2)
 (latch pc word) (memory rf)
 (next pc (inc pc))
 (next rf (write rf (dst pc) (alu (op pc) (read rf (src pc))))))
";

/// The generated pipeline of a depth from 2 to 12 with a path left out. Its specification is the text written by hand.
fn pipeline(rt: &(impl Abort + AllocGlobal), depth: u32, drop: u32) -> Vec<u8> {
    assert!(rt; 2 <= depth && depth <= 12);
    let (pipeline, specification) = design_text(rt.alloc(), depth, drop).expect(rt, "memory");
    assert!(rt; specification.as_slice() == SPECIFICATION.as_bytes());
    pipeline
}

/// Checks that the generated pipeline is the text written by hand.
fn check_text(rt: &(impl Abort + AllocGlobal), depth: u32, drop: u32, want: &str) {
    let text = pipeline(rt, depth, drop);
    assert!(rt; text.as_slice() == want.as_bytes());
}

/// The generated pipelines and their specification are the texts written by hand, with all paths and with one left out.
#[test]
fn both_texts_are_those_written_by_hand(rt: HostRuntime) {
    check_text(&rt, 2, 0, DEPTH_2);
    check_text(&rt, 3, 2, DEPTH_3_DROP_2);
}

/// The lines of a text, counted by their ends.
fn lines(text: &[u8]) -> usize {
    text.iter().filter(|byte| **byte == b'\n').count()
}

/// Checks how many lines the generated pipeline has.
fn check_lines(rt: &(impl Abort + AllocGlobal), depth: u32, drop: u32, want: usize) {
    let text = pipeline(rt, depth, drop);
    assert!(rt; lines(text.as_slice()) == want);
}

/// 22 lines at any depth, 3 for each stage after the fetch, 5 more for each after stage 2.
#[test]
fn depth_decides_how_many_lines_there_are(rt: HostRuntime) {
    check_lines(&rt, 2, 1, 25);
    check_lines(&rt, 3, 0, 33);
    check_lines(&rt, 12, 0, 105);
    check_lines(&rt, 12, 11, 105);
}

/// Whether the pipeline of depth 4 with a path left out is this text.
fn is_text(rt: &(impl Abort + AllocGlobal), drop: u32, text: &[u8]) -> bool {
    let made = pipeline(rt, 4, drop);
    made.as_slice() == text
}

/// Leaving out path 0, or one past the last, changes nothing; leaving out any other changes the pipeline.
#[test]
fn no_path_is_left_out_at_0_or_above_the_last(rt: HostRuntime) {
    let whole = pipeline(&rt, 4, 0);
    for drop in 1..4 {
        assert!(rt; !is_text(&rt, drop, whole.as_slice()), "{drop}");
    }
    assert!(rt; is_text(&rt, 4, whole.as_slice()) && is_text(&rt, u32::MAX, whole.as_slice()));
}
