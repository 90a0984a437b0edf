//! Layouts of trees.
use el_blocks::{MAX_LEVELS, spell};
use el_layout::print;
use el_lex::{Token, lex};
use el_tree::{Arg, Args, Group, Last, Node, Nodes, Place, Places, Tree};
use el_words::{NoMemory, Prog, Word, Words};
use std::alloc::Global;
use std::test::Fail;

fn command(alloc: Global, texts: &[&[u8]]) -> Result<Tree, Fail> {
    let mut items = Args::new(alloc, Arg::Word(Word::from_bytes(alloc, b"echo")?))?;
    for text in texts {
        items.push(Arg::Word(Word::from_bytes(alloc, text)?))?;
    }
    Ok(Tree {
        nodes: Nodes::new(alloc),
        last: Last::Command(items),
    })
}

fn one_place(alloc: Global, place: Place) -> Result<Places, NoMemory> {
    let mut places = Places::new(alloc);
    places.push(place)?;
    Ok(places)
}

// Whether the layout of a command reads as `echo` and these words.
fn reads_back(alloc: Global, texts: &[&[u8]]) -> Result<bool, Fail> {
    let tokens = lex(alloc, print(alloc, &command(alloc, texts)?)?.as_bytes())?;
    if tokens.len() != texts.len() + 1 {
        return Ok(false);
    }
    Ok(
        tokens.iter().skip(1).zip(texts).all(|(token, text)| match token {
            Token::Word { word, .. } => word.as_bytes() == *text,
            _ => false,
        }),
    )
}

#[test]
fn words_read_back(rt: HostRuntime) -> Result<(), Fail> {
    let alloc = rt.alloc();
    for byte in 1..=u8::MAX {
        for text in [
            [byte].as_slice(),
            [byte, b'9'].as_slice(),
            [b'9', byte].as_slice(),
            [byte, b'f'].as_slice(),
            [byte, b'{'].as_slice(),
            [b'{', byte].as_slice(),
            [byte, b'}'].as_slice(),
            [b'}', byte].as_slice(),
            [b'#', byte].as_slice(),
        ] {
            assert!(rt; reads_back(alloc, &[text])?, "{byte}");
            assert!(rt; reads_back(alloc, &[text, b"", text])?, "{byte}");
        }
    }
    Ok(())
}

// Blocks in one another, so many.
fn nested(alloc: Global, levels: usize) -> Result<Tree, Fail> {
    let mut tree = command(alloc, &[])?;
    for _ in 0..levels {
        let mut nodes = Nodes::new(alloc);
        nodes.push(Node {
            prog: Prog::Foreground,
            options: Words::new(alloc),
            places: one_place(alloc, Place::Block(tree))?,
        })?;
        tree = Tree {
            nodes,
            last: Last::End,
        };
    }
    Ok(tree)
}

// Blocks of a command in one another, so many.
fn grouped(alloc: Global, levels: usize) -> Result<Tree, Fail> {
    let mut group = Group::new(alloc);
    for _ in 1..levels {
        let mut outer = Group::new(alloc);
        outer.push(Arg::Group(group))?;
        group = outer;
    }
    Ok(Tree {
        nodes: Nodes::new(alloc),
        last: Last::Command(Args::new(alloc, Arg::Group(group))?),
    })
}

#[test]
fn deep_trees_read_back(rt: HostRuntime) -> Result<(), Fail> {
    let alloc = rt.alloc();
    let levels = usize::from(MAX_LEVELS);
    for (tree, count) in [
        (nested(alloc, levels)?, 3 * levels + 1),
        (grouped(alloc, levels)?, 2 * levels),
    ] {
        let tokens = lex(alloc, print(alloc, &tree)?.as_bytes())?;
        assert_eq!(rt; tokens.len(), count);
        assert!(rt; spell(alloc, &tokens).is_ok());
    }
    Ok(())
}
