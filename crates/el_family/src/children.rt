//! The children of a member, by its log.
ghost use Rattle.std.specs.Prelude.{◌≡◌, ◌++◌, [], IfOk, OnOk, Some, slice_index_or};
ghost use Rattle.el_world.specs.Log.{events_of};
ghost use Rattle.el_family.specs.Processes.{new_process, process_of, processes_of};
ghost use Rattle.el_family.specs.Families.{child_of, children_of};

use crate::member::{Member, Origin};
use crate::names::names_member;
use el_env::Env;
use el_words::{NoMemory, Word, Words};
use el_world::{Event, Log};
use std::alloc::Global;

/// The children of the member with this number that has this log, in the order of their starts.
pub(crate) fn children_of(alloc: Global, member: usize, log: &Log) -> Result<Vec<Member>, NoMemory>
    ensures { IfOk result (λ children. processes_of children.items ≡ children_of member (events_of log.now)) }
{
    let mut children = Vec::new(alloc);
    for place in 0..log.len() {
        let Some(event) = log.get(place) else {
            unreachable!();
        };
        let origin = Origin {
            member,
            event: place,
        };
        put_child(origin, event, &mut children)?;
    }
    Ok(children)
}

// Puts the child of an event last, where it has one.
fn put_child(origin: Origin, event: &Event, children: &mut Vec<Member>) -> Result<(), NoMemory>
    ensures { OnOk result (processes_of children.new.items ≡ processes_of children.old.items ++ child_of origin event.now) }
{
    if let Event::Start {
        words,
        env,
        dir,
        answer: Ok(_),
        ..
    } = event
    {
        if names_member(first_word(words)) {
            children.push(child_of(words, env, dir, origin)?)?;
        }
    }
    Ok(())
}

// A process that was handed copies of these.
fn child_of(words: &Words, env: &Env, dir: &Word, origin: Origin) -> Result<Member, NoMemory>
    ensures { IfOk result (λ member. process_of member ≡ new_process words.now env.now dir.now (Some origin)) }
{
    Ok(Member {
        words: words.copy()?,
        env: env.copy()?,
        dir: dir.copy()?,
        origin: Some(origin),
        ran: None,
    })
}

// The first word; empty where there is none.
fn first_word(words: &Words) -> &[u8]
    ensures { result.now ≡ slice_index_or words.now 0 [] }
{
    words.first().unwrap_or(&[])
}
