//! Walks over pages that are not those of a stream.

use super::pages_tests::{Change, changed};
use super::shelf::{
    Block, Commit, Question, Roots, STREAM, Stream, TALL, disk_of, held_of, roots_of, stream_of,
};
use super::shelf_tests::{FAR, Tally, ask};
use btr_base::{END, FIRST, Toward};
use btr_node::{PAGE, decode, spell};
use btr_shelf::DiskNodes;
use btr_tree::{NodeFault, Nodes, Root};
use std::alloc::Global;
use std::test::Fail;

/// Questions of all six calls that visit the bottom span from 40 to 44.
pub(crate) const QUESTIONS: &[Question] = &[
    Question::Points(40, 44),
    Question::Nearest(41, Toward::Forward),
    Question::Nearest(43, Toward::Backward),
    Question::Aggregate(41, 43),
    Question::Aligned(40, 44, 0),
    Question::Windows(40, 44, 1),
    Question::Changes(0),
];

/// The question whose walk visits two versions.
const COMPARISON: &[Question] = &[Question::Changes(0)];

// ---- blocks with another page, or with none

/// What a block has in place of its page.
#[derive(Clone, Copy)]
enum Content {
    /// The page of this block.
    Page(usize),

    /// Its page after a change.
    Changed(Change),
}

const GONE: Content = Content::Changed(Change::Gone);

const COUNT: Content = Content::Changed(Change::Count);

const VERSION: Content = Content::Changed(Change::Version);

const STRANGE: Content = Content::Changed(Change::Stream);

/// A block of `TALL`, what is put into it, and the block that is then named.
struct Damage(usize, Content, u64);

/// A page after a change as a block, or a block of zeros if it is gone. Fails if the page does not keep the table after it.
fn block_after(block: &Block, change: Change) -> Result<Block, Fail> {
    let page = decode(block).ok_or("no page")?;
    let mut bytes = [0; PAGE];
    if let Some(page) = changed(&page, change) {
        spell(&page, &mut bytes);
        if decode(&bytes).is_none() {
            return Err("a change that leaves no page".into());
        }
    }
    Ok(bytes)
}

/// Puts another page into a block, or none.
fn put(blocks: &mut [Block], at: usize, what: Content) -> Result<(), Fail> {
    let block = match what {
        Content::Page(other) => *blocks.get(other).ok_or("no block")?,
        Content::Changed(change) => block_after(blocks.get(at).ok_or("no block")?, change)?,
    };
    *blocks.get_mut(at).ok_or("no block")? = block;
    Ok(())
}

/// Whether a question is refused, and the refusal names this block.
fn is_refused<N: Nodes>(
    alloc: Global,
    nodes: &mut N,
    roots: Roots,
    question: Question,
    block: u64,
) -> bool {
    match question.of_pages(alloc, nodes, roots) {
        Err(NodeFault::Damaged { block: named }) => named == block,
        _ => false,
    }
}

/// Whether each question is refused, and each refusal names this block.
fn are_refused<N: Nodes>(
    alloc: Global,
    nodes: &mut N,
    roots: Roots,
    questions: &[Question],
    block: u64,
) -> bool {
    questions.iter().all(|question| is_refused(alloc, nodes, roots, *question, block))
}

/// Whether each question is refused by pages in memory and by those of a device, and each refusal names this block.
fn are_refused_by_both(
    alloc: Global,
    blocks: &[Block],
    roots: Roots,
    questions: &[Question],
    block: u64,
) -> Result<bool, Fail> {
    let mut held = held_of(alloc, blocks)?;
    let mut disk = DiskNodes::new(disk_of(alloc, blocks, 1024, 0, &[])?);
    Ok(
        are_refused(alloc, &mut held, roots, questions, block)
            && are_refused(alloc, &mut disk, roots, questions, block),
    )
}

/// Fails with the number of the first row after whose damage an answer is given, or another block is named.
fn are_named(
    alloc: Global,
    stream: &Stream,
    roots: Roots,
    questions: &[Question],
    rows: &[Damage],
) -> Result<(), Fail> {
    for (number, Damage(at, what, named)) in rows.iter().enumerate() {
        let mut blocks = Vec::from_slice(alloc, &stream.blocks)?;
        put(&mut blocks, *at, *what)?;
        if !are_refused_by_both(alloc, &blocks, roots, questions, *named)? {
            return Err(Fail::new(format_args!("row {number}")));
        }
    }
    Ok(())
}

/// Fails with the number of the first row after whose damage a question of a version of `TALL` and an older one is answered, or another
/// block is named.
fn are_named_between(
    alloc: Global,
    old: usize,
    new: usize,
    questions: &[Question],
    rows: &[Damage],
) -> Result<(), Fail> {
    let stream = stream_of(alloc, TALL)?;
    let roots = roots_of(&stream, old, new).ok_or("no version")?;
    are_named(alloc, &stream, roots, questions, rows)
}

/// Pages on the way from the root to the bottom span from 40 to 44.
const BELOW: &[Damage] = &[
    // the bottom span, and the next one with as many points of the same version
    Damage(14, GONE, 14),
    Damage(14, Content::Page(15), 68),
    Damage(14, COUNT, 68),
    Damage(14, VERSION, 68),
    Damage(14, STRANGE, 68),
    // the node above it, and the one above that with the same points
    Damage(68, GONE, 68),
    Damage(68, Content::Page(69), 69),
    Damage(68, COUNT, 69),
    Damage(68, VERSION, 69),
    Damage(68, STRANGE, 69),
    // halfway up
    Damage(72, GONE, 72),
    Damage(72, Content::Page(73), 73),
    Damage(72, COUNT, 73),
    Damage(72, VERSION, 73),
    Damage(72, STRANGE, 73),
    // below the root
    Damage(76, GONE, 76),
    Damage(76, Content::Page(77), 77),
    Damage(76, COUNT, 77),
    Damage(76, VERSION, 77),
    Damage(76, STRANGE, 77),
];

#[test]
fn wrong_pages_below_a_root_are_refused(rt: HostRuntime) -> Result<(), Fail> {
    are_named_between(rt.alloc(), 0, 1, QUESTIONS, BELOW)
}

/// Pages on the way to the changed bottom span, in the older and in the newer version.
const BESIDE: &[Damage] = &[
    Damage(6, GONE, 6),
    Damage(6, Content::Page(7), 68),
    Damage(6, COUNT, 68),
    Damage(6, VERSION, 68),
    Damage(6, STRANGE, 68),
    Damage(68, GONE, 68),
    Damage(68, Content::Page(69), 69),
    Damage(68, COUNT, 69),
    Damage(68, VERSION, 69),
    Damage(68, STRANGE, 69),
    Damage(78, GONE, 78),
    Damage(78, Content::Page(6), 79),
    Damage(78, COUNT, 79),
    Damage(78, VERSION, 79),
    Damage(78, STRANGE, 79),
    Damage(87, GONE, 87),
    Damage(87, Content::Page(88), 88),
    Damage(87, COUNT, 88),
    Damage(87, VERSION, 88),
    Damage(87, STRANGE, 88),
];

#[test]
fn wrong_pages_below_either_root_end_a_comparison(rt: HostRuntime) -> Result<(), Fail> {
    are_named_between(rt.alloc(), 1, 2, COMPARISON, BESIDE)
}

/// The root, with a page of a lower node, of a newer version and of another stream.
const ROOT: &[Damage] = &[
    Damage(77, GONE, 77),
    Damage(77, Content::Page(76), 77),
    Damage(77, VERSION, 77),
    Damage(77, STRANGE, 77),
];

#[test]
fn wrong_pages_of_a_root_are_refused(rt: HostRuntime) -> Result<(), Fail> {
    are_named_between(rt.alloc(), 0, 1, QUESTIONS, ROOT)
}

/// The older and the newer root of a comparison, with such pages.
const ROOTS: &[Damage] = &[
    Damage(77, GONE, 77),
    Damage(77, Content::Page(76), 77),
    Damage(77, VERSION, 77),
    Damage(77, STRANGE, 77),
    Damage(88, GONE, 88),
    Damage(88, Content::Page(87), 88),
    Damage(88, VERSION, 88),
    Damage(88, STRANGE, 88),
];

#[test]
fn wrong_pages_of_either_root_end_a_comparison(rt: HostRuntime) -> Result<(), Fail> {
    are_named_between(rt.alloc(), 1, 2, COMPARISON, ROOTS)
}

/// A block, a stream and a version that are those of no root of `TALL`.
struct NoRoot(u64, u32, u64);

const NO_ROOTS: &[NoRoot] = &[
    // no page, a block after the last one, a bottom span, and the node below the root
    NoRoot(3, STREAM, 1),
    NoRoot(89, STREAM, 1),
    NoRoot(u64::MAX, STREAM, 1),
    NoRoot(4, STREAM, 1),
    NoRoot(76, STREAM, 1),
    // another stream, and a version before that of the page
    NoRoot(77, 259, 1),
    NoRoot(77, STREAM, 0),
    NoRoot(88, STREAM, 1),
];

#[test]
fn no_roots_are_refused(rt: HostRuntime) -> Result<(), Fail> {
    let stream = stream_of(rt.alloc(), TALL)?;
    let roots = roots_of(&stream, 0, 1).ok_or("no version")?;
    for NoRoot(block, stream_number, version) in NO_ROOTS {
        let new = Root {
            block: *block,
            stream: *stream_number,
            version: *version,
        };
        let roots = Roots { new, ..roots };
        assert!(rt; are_refused_by_both(rt.alloc(), &stream.blocks, roots, QUESTIONS, *block)?);
    }
    Ok(())
}

// ---- any page lost

/// The points of three leaves, in blocks 4 to 6, below the root in block 7. Then the second leaf again with one point more, in block 8,
/// below the root in block 9.
const SMALL: &[Commit] = &[
    Commit(&[(0, 1, 100), (FAR, 1, 100), (2 * FAR, 1, 100)], &[]),
    Commit(&[(FAR + 7, 0, 1)], &[]),
];

/// A block of `SMALL`, and the one that is named if a page of another stream is in it.
struct Place(usize, u64);

const PLACES: &[Place] = &[
    Place(4, 9),
    Place(5, 7),
    Place(6, 9),
    Place(7, 7),
    Place(8, 9),
    Place(9, 9),
];

/// A question of the last version of `SMALL` and the one before it, and the blocks whose pages its walk fetches.
struct Walk(Question, &'static [usize]);

const WALKS: &[Walk] = &[
    Walk(Question::Points(FIRST, END), &[4, 6, 8, 9]),
    Walk(Question::Points(FAR, FAR + 10), &[8, 9]),
    Walk(Question::Nearest(FAR + 3, Toward::Forward), &[8, 9]),
    Walk(Question::Nearest(FAR, Toward::Backward), &[4, 9]),
    Walk(Question::Aggregate(50, FAR + 50), &[4, 8, 9]),
    Walk(Question::Aggregate(FIRST, END), &[9]),
    Walk(Question::Aligned(FAR, FAR + 4, 1), &[8, 9]),
    Walk(Question::Aligned(FIRST, END, 57), &[9]),
    Walk(Question::Windows(0, FAR + 50, 50), &[4, 8, 9]),
    Walk(Question::Changes(0), &[5, 7, 8, 9]),
];

/// Whether a question has the answer of the trees by these blocks, if its walk does not fetch the lost page, or else is refused with the
/// block that is named.
fn is_right_or_refused(
    alloc: Global,
    stream: &Stream,
    blocks: &[Block],
    walk: &Walk,
    lost: usize,
    named: u64,
) -> Result<bool, Fail> {
    let [_, old, new] = stream.versions.as_slice() else {
        return Err("three versions".into());
    };
    let Walk(question, fetched) = walk;
    let roots = Roots {
        old: old.root,
        new: new.root,
    };
    let mut held = held_of(alloc, blocks)?;
    if fetched.contains(&lost) {
        return Ok(is_refused(alloc, &mut held, roots, *question, named));
    }
    let right = question.of_trees(alloc, old, new)?;
    Ok(match question.of_pages(alloc, &mut held, roots) {
        Ok(answered) => answered == right,
        Err(_) => false,
    })
}

/// Fails with the number of the first walk that gives another answer, or names another block, if one page is lost.
fn are_right_or_refused(
    alloc: Global,
    stream: &Stream,
    lost: usize,
    what: Content,
    named: u64,
) -> Result<(), Fail> {
    let mut blocks = Vec::from_slice(alloc, &stream.blocks)?;
    put(&mut blocks, lost, what)?;
    for (number, walk) in WALKS.iter().enumerate() {
        if !is_right_or_refused(alloc, stream, &blocks, walk, lost, named)? {
            return Err(Fail::new(format_args!("block {lost}, walk {number}")));
        }
    }
    Ok(())
}

#[test]
fn no_answer_lacks_what_is_in_a_lost_page(rt: HostRuntime) -> Result<(), Fail> {
    let stream = stream_of(rt.alloc(), SMALL)?;
    for Place(lost, above) in PLACES {
        are_right_or_refused(rt.alloc(), &stream, *lost, GONE, *lost as u64)?;
        are_right_or_refused(rt.alloc(), &stream, *lost, STRANGE, *above)?;
    }
    Ok(())
}

// ---- blocks as they are

/// The questions have the answers of the trees if no page is wrong and no read fails.
#[test]
fn pages_as_they_are_give_the_answers_of_the_trees(rt: HostRuntime) -> Result<(), Fail> {
    let stream = stream_of(rt.alloc(), TALL)?;
    let [old, new, newer] = stream.versions.as_slice() else {
        return Err("three versions".into());
    };
    let mut nodes = held_of(rt.alloc(), &stream.blocks)?;
    let mut tally = Tally::new();
    for question in QUESTIONS {
        ask(rt.alloc(), &mut nodes, old, new, *question, &mut tally)?;
    }
    ask(
        rt.alloc(),
        &mut nodes,
        new,
        newer,
        Question::Changes(0),
        &mut tally,
    )?;
    assert!(rt; tally.agrees(8));
    Ok(())
}
