//! Frames of variables.
use el_env::{Env, EnvFault};
use el_words::{NoMemory, Word};
use std::alloc::Global;
use std::test::Fail;

// Variables, how often to push and then to pop, and what they are then.
const MOVES: [(&[(&str, &str)], usize, usize, &[(&str, &str)]); 4] = [
    (&BEFORE, 1, 0, &PUSHED),
    (&BEFORE, 2, 2, &BEFORE),
    (&BEFORE, 0, 1, &POPPED),
    (&LESS_DEEP, 1, 0, &LESS_DEEP_PUSHED),
];

const BEFORE: [(&str, &str); 10] = [
    ("1", "x"),
    ("1:1", "y"),
    ("A", "z"),
    ("a:1", "u"),
    ("#", "0"),
    ("0x:9", "p"),
    ("1:0", "q"),
    ("1:09", "r"),
    ("1:", "s"),
    ("1:2:3", "t"),
];

const PUSHED: [(&str, &str); 10] = [
    ("1:1", "x"),
    ("1:2", "y"),
    ("A", "z"),
    ("a:1", "u"),
    ("#:1", "0"),
    ("0x:10", "p"),
    ("1:0", "q"),
    ("1:09", "r"),
    ("1:", "s"),
    ("1:2:3", "t"),
];

const POPPED: [(&str, &str); 8] = [
    ("1", "y"),
    ("A", "z"),
    ("a:1", "u"),
    ("0x:8", "p"),
    ("1:0", "q"),
    ("1:09", "r"),
    ("1:", "s"),
    ("1:2:3", "t"),
];

const LESS_DEEP: [(&str, &str); 2] = [
    ("1:18446744073709551614", "y"),
    ("2:18446744073709551616", "z"),
];

const LESS_DEEP_PUSHED: [(&str, &str); 2] = [
    ("1:18446744073709551615", "y"),
    ("2:18446744073709551616", "z"),
];

fn word(alloc: Global, text: &str) -> Result<Word, NoMemory> {
    match Word::from_bytes(alloc, text.as_bytes()) {
        Ok(word) => Ok(word),
        Err(_) => Err(NoMemory),
    }
}

fn put(env: &mut Env, alloc: Global, name: &str, value: &str) -> Result<(), EnvFault> {
    env.set(word(alloc, name)?, word(alloc, value)?)
}

fn env_of(alloc: Global, vars: &[(&str, &str)]) -> Result<Env, EnvFault> {
    let mut env = Env::new(alloc);
    for (name, value) in vars {
        put(&mut env, alloc, name, value)?;
    }
    Ok(env)
}

fn has(env: &Env, name: &str, value: &str) -> bool {
    match env.get(name.as_bytes()) {
        Some(found) => found == value.as_bytes(),
        None => false,
    }
}

// Whether these are the variables of the environment, and there are no others.
fn has_just(env: &Env, vars: &[(&str, &str)]) -> Result<bool, NoMemory> {
    for (name, value) in vars {
        if !has(env, name, value) {
            return Ok(false);
        }
    }
    Ok(env.names()?.len() == vars.len())
}

fn move_frames(env: &mut Env, pushes: usize, pops: usize) -> Result<(), EnvFault> {
    for _ in 0..pushes {
        env.push_frame()?;
    }
    for _ in 0..pops {
        env.pop_frame()?;
    }
    Ok(())
}

#[test]
fn frames_are_pushed_and_popped(rt: HostRuntime) -> Result<(), Fail> {
    for (before, pushes, pops, after) in MOVES {
        let mut env = env_of(rt.alloc(), before)?;
        move_frames(&mut env, pushes, pops)?;
        assert!(rt; has_just(&env, after)?);
    }
    Ok(())
}
