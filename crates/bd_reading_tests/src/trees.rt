//! What is written of trees.
use bd_syntax::is_name;
use bd_text::{read_trees, write_tree};
use std::test::Fail;

/// A tree is written with one space between its parts, equal texts have equal trees, and `let` is no name.
#[test]
fn written_tree(rt: HostRuntime) -> Result<(), Fail> {
    let trees = read_trees(rt.alloc(), b"( a  (b ;x\n c) )")?;
    assert!(&rt; trees.len() == 1);
    let text = write_tree(rt.alloc(), &trees, 0)?;
    assert!(&rt; text.as_slice() == b"(a (b c))".as_slice());
    let again = read_trees(rt.alloc(), b"( a  (b ;x\n c) )")?;
    assert!(rt; trees == again && is_name(b"_.-9Z") && !is_name(b"let"));
    Ok(())
}
