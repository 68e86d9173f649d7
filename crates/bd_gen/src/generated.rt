//! A pipeline of `depth` stages with full forwarding, one result a stage. Stage 1 fetches. The
//! operand is read from the registers as the last stage leaves them, and each younger stage that is to write
//! the same register puts its own result before that. So the youngest writer decides, as it does
//! where instructions run one after the other. A path that is left out lets an older value through.
ghost use Rattle.std.specs.Prelude.{◌≡◌, ◌++◌, ◌+◌, ◌≤◌, OnOk, IfOk, length, string_bytes};
ghost use Rattle.std.specs.List.{flat_map};
ghost use Rattle.bd_gen.specs.Pipeline.{stages, pipeline_text, declarations, latch_lines};
ghost use Rattle.bd_gen.specs.Pipeline.{lets, result_line, operand_line, operand_lines, nexts, passing_lines};
ghost use Rattle.bd_gen.specs.Specification.{specification_text};

use std::alloc::{AllocError, Global};

const OPENING: &str = "(pipeline
 (function inc 1)
 (function src 1)
 (function dst 1)
 (function op 1)
 (function alu 2)
 (latch pc word)
 (memory rf)
 (latch o word)
 (latch a word)
";

const FETCH: &str = " (input stall bool true)
 (let s word (src pc))
 (let r2 word (alu o a))
";

const DECODE: &str = " (next o (op pc))
 (next a q2)
 (next v2 (not stall))
 (next d2 (dst pc))
";

const SPECIFICATION: &str = "(specification
 (function inc 1) (function src 1) (function dst 1) (function op 1) (function alu 2)
 (latch pc word) (memory rf)
 (next pc (inc pc))
 (next rf (write rf (dst pc) (alu (op pc) (read rf (src pc))))))
";

/// The text of a pipeline of `depth` stages with full forwarding, one result a stage, and the text of
/// its specification, which runs one instruction a step: it reads one register, and writes one.
///
/// Forwarding path `p` is the one from stage `p + 1`, and `drop` names the path that is left out. With
/// a `drop` of 0, or above `depth - 1`, none is left out, and the pipeline does what its specification
/// does. With one from 1 to `depth - 1` an instruction in stage `drop + 1` can be missed by a reader
/// that follows it. What is proved here is the texts, not that.
///
/// Pipelines of this kind: Burch and Dill 1994; Bryant, German and Velev 2001. `AllocError` where
/// there is no memory.
pub fn design_text(alloc: Global, depth: u32, drop: u32) -> Result<(Vec<u8>, Vec<u8>), AllocError>
    requires deep { 2 ≤ depth }
    requires bounded { depth ≤ 12 }
    ensures pipeline { IfOk result (λ texts. texts.0.items ≡ pipeline_text depth drop) }
    ensures specification { IfOk result (λ texts. texts.1.items ≡ specification_text) }
    ensures short { IfOk result (λ texts. length texts.0.items ≤ 65536) }
    ensures short_specification { IfOk result (λ texts. length texts.1.items ≤ 65536) }
{
    let mut pipeline = String::new(alloc);
    push_declarations(&mut pipeline, depth)?;
    push_lets(&mut pipeline, depth, drop)?;
    push_nexts(&mut pipeline, depth)?;
    let flush = depth - 1;
    write!(pipeline, " (flush {flush})\n")?;
    pipeline.push_str(" (steps 1))\n")?;
    let specification = Vec::from_slice(alloc, SPECIFICATION.as_bytes())?;
    Ok((pipeline.into_bytes(), specification))
}

/// Adds the head of the pipeline: functions, counter, register file, and the latches of each stage.
fn push_declarations(text: &mut String, depth: u32) -> Result<(), AllocError>
    requires { depth ≤ 12 }
    ensures { OnOk result (string_bytes text.new ≡ string_bytes text.old ++ declarations depth) }
{
    text.push_str(OPENING)?;
    push_latches(text, depth)
}

/// Adds a valid bit and a target for each stage from 2 on, and a result for each from 3 on.
fn push_latches(text: &mut String, depth: u32) -> Result<(), AllocError>
    requires { depth ≤ 12 }
    ensures { OnOk result (string_bytes text.new ≡ string_bytes text.old ++ latch_lines depth) }
{
    for i in 2..depth + 1 {
        write!(text, " (latch v{i} bool)\n")?;
        write!(text, " (latch d{i} word)\n")?;
    }
    for i in 3..depth + 1 {
        write!(text, " (latch x{i} word)\n")?;
    }
    Ok(())
}

/// Adds the input and the lets: the source register, the results of the stages, and the operand by each path.
fn push_lets(text: &mut String, depth: u32, drop: u32) -> Result<(), AllocError>
    requires { depth ≤ 12 }
    ensures { OnOk result (string_bytes text.new ≡ string_bytes text.old ++ lets depth drop) }
{
    text.push_str(FETCH)?;
    push_results(text, depth)?;
    let registers = depth + 1;
    write!(text, " (let q{registers} word (read rf s))\n")?;
    push_operands(text, depth, drop)
}

/// Adds a let for the result that each stage from 3 on holds.
fn push_results(text: &mut String, depth: u32) -> Result<(), AllocError>
    requires { depth ≤ 12 }
    ensures { OnOk result (
        string_bytes text.new ≡ string_bytes text.old ++ flat_map result_line (stages 3 depth)) }
{
    for i in 3..depth + 1 {
        write!(text, " (let r{i} word x{i})\n")?;
    }
    Ok(())
}

/// Adds a let for the operand as each stage forwards it, from the last stage back to stage 2.
fn push_operands(text: &mut String, depth: u32, drop: u32) -> Result<(), AllocError>
    requires { depth ≤ 12 }
    ensures { OnOk result (
        string_bytes text.new ≡ string_bytes text.old ++ operand_lines depth drop) }
{
    for i in (2..depth + 1).rev() {
        push_operand(text, i, drop)?;
    }
    Ok(())
}

/// Adds a let for the operand by the path from stage `i`, or by those of later stages alone if that path is dropped.
fn push_operand(text: &mut String, i: u32, drop: u32) -> Result<(), AllocError>
    requires after_fetch { 2 ≤ i }
    requires bounded { i ≤ 12 }
    ensures { OnOk result (string_bytes text.new ≡ string_bytes text.old ++ operand_line drop i) }
{
    let path = i - 1;
    let older = i + 1;
    if path == drop {
        write!(text, " (let q{i} word q{older})\n")
    } else {
        write!(
            text,
            " (let q{i} word (ite (and v{i} (= d{i} s)) r{i} q{older}))\n"
        )
    }
}

/// Adds the next values of all entries: the counter's, the register file's, and those of each stage.
fn push_nexts(text: &mut String, depth: u32) -> Result<(), AllocError>
    requires { depth ≤ 12 }
    ensures { OnOk result (string_bytes text.new ≡ string_bytes text.old ++ nexts depth) }
{
    text.push_str(" (next pc (ite stall pc (inc pc)))\n")?;
    write!(
        text,
        " (next rf (ite v{depth} (write rf d{depth} r{depth}) rf))\n"
    )?;
    text.push_str(DECODE)?;
    push_passing(text, depth)
}

/// Adds that each stage from 3 on takes over what the stage before it holds.
fn push_passing(text: &mut String, depth: u32) -> Result<(), AllocError>
    requires { depth ≤ 12 }
    ensures { OnOk result (string_bytes text.new ≡ string_bytes text.old ++ passing_lines depth) }
{
    for i in 3..depth + 1 {
        let before = i - 1;
        write!(text, " (next v{i} v{before})\n")?;
        write!(text, " (next d{i} d{before})\n")?;
        write!(text, " (next x{i} r{before})\n")?;
    }
    Ok(())
}
