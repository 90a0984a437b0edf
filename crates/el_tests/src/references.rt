//! References whose values have too many products.
use el_subst::{Subst, apply_to};
use el_words::{NoMemory, Word, Words};
use std::alloc::Global;
use std::test::Fail;

// The number of products is known before any is made, and the room for them is taken first.
#[test]
fn products_beyond_memory_are_refused_at_once(rt: HostRuntime) -> Result<(), Fail> {
    let alloc = rt.alloc();
    let mut subst = Subst::new(alloc);
    subst.add(word(alloc, "A")?, words(alloc, &["1", "2"])?)?;
    for count in [40, 100] {
        let product = "$A".repeat(alloc, count)?;
        let text = words(alloc, &[product.as_str()])?;
        assert!(rt; apply_to(alloc, &subst, text).is_err(), "{count}");
    }
    Ok(())
}

fn words(alloc: Global, texts: &[&str]) -> Result<Words, NoMemory> {
    let mut words = Words::new(alloc);
    for text in texts {
        words.push(word(alloc, text)?.as_bytes())?;
    }
    Ok(words)
}

fn word(alloc: Global, text: &str) -> Result<Word, NoMemory> {
    match Word::from_bytes(alloc, text.as_bytes()) {
        Ok(word) => Ok(word),
        Err(_) => Err(NoMemory),
    }
}
