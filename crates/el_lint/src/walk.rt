//! A tree from its first program to its last command.
#![tactic(auto, using(crate::proofs::Walking::walking))]

ghost use Rattle.el_script.specs.Vocabulary.{written, written_places, written_directives, tree_of, places_of, directives_of};
ghost use Rattle.std.specs.Prelude.{◌≡◌, ◌+◌, [], ◌∷◌, ◌++◌, length, OnOk};
ghost use Rattle.el_tree.specs.Lists.{last_tree};
ghost use Rattle.el_lint.specs.KnownTold.{known_told};
ghost use Rattle.el_lint.specs.Lints.{place_texts, misspelled_by, first_lints, begun_lints, command_lints, program_lints};
ghost use Rattle.el_lint.specs.Typos.{misspelled};
ghost use Rattle.el_lint.specs.Findings.{tokens_in, line_at, found_on, all_found_on};
ghost use Rattle.el_lint.specs.Walks.{whole_told, found_here, found_in_tree, found_in_places, found_in_directives, Passes, PassesChain};

use crate::allowance::{Allowance, is_allowed};
use crate::context::Context;
use crate::differing::put_differing;
use crate::finding::Finding;
use crate::known::KnownNames;
use crate::lint::Lint;
use crate::loaded::put_loaded;
use crate::negated::put_negated;
use crate::refused::put_refused;
use crate::stranger::Stranger;
use crate::texts::{command_texts, group_tokens, place_texts};
use crate::typo::misspelled;
use crate::unset::put_unset;
use crate::unused::put_unused;
use crate::valued::{put_coded, put_valued};
use el_lex::Tokens;
use el_reader::token_line;
use el_tree::{Arg, Args, Directives, Last, Nodes, Place, Places, Tree};
use el_words::{Bytes, NoMemory, Prog, Words};
use std::alloc::Global;

/// What is the same all over a script: its tokens, the keys that its words refer to, those of them that are risked, and its comments that
/// allow lints.
#[derive(Clone, Copy)]
pub(crate) struct Script<'a> {
    pub(crate) tokens: &'a Tokens,
    pub(crate) used: &'a [Bytes],
    pub(crate) risked: &'a [Bytes],
    pub(crate) allowances: &'a [Allowance],
}

/// Where a walk is: before the token of this number, with the names that are known there; and what was found.
#[derive(Drop)]
pub(crate) struct Walk {
    pub(crate) at: usize,
    pub(crate) known: KnownNames,
    pub(crate) findings: Vec<Finding>,
}

impl Script<'_> {
    /// Walks through a tree. The names that are known behind it are those before it.
    #[cycle(walk)]
    pub(crate) fn tree(
        &self,
        alloc: Global,
        context: Context,
        tree: &Tree,
        walk: &mut Walk,
    ) -> Result<(), NoMemory>
        ensures { OnOk result (Passes walk.old walk.new (found_in_tree self.now walk.old context tree.now) (tokens_in (written tree.now))) }
    {
        let mark = walk.known.mark();
        self.chain(alloc, context, &tree.nodes, &tree.last, walk)?;
        walk.known.back_to(mark);
        Ok(())
    }

    #[cycle(walk)]
    fn chain(
        &self,
        alloc: Global,
        context: Context,
        nodes: &Nodes,
        last: &Last,
        walk: &mut Walk,
    ) -> Result<(), NoMemory>
        ensures { OnOk result (PassesChain walk.old walk.new (found_in_tree self.now walk.old context (tree_of nodes.now last.now)) (tokens_in (written (tree_of nodes.now last.now)))) }
    {
        let mut context = context;
        for node in nodes.iter() {
            self.program(
                alloc,
                &context,
                node.prog,
                &node.options,
                &node.places,
                walk,
            )?;
            let inside = context.inside(alloc, node.prog, &node.options)?;
            self.places(alloc, inside, &node.places, walk)?;
            walk.known
                .learn(alloc, node.prog, &node.options, &node.places)?;
            context = context.behind(alloc, node.prog, &node.options, &node.places)?;
        }
        self.last(alloc, &context, last, walk)
    }

    #[cycle(walk)]
    fn places(
        &self,
        alloc: Global,
        context: Context,
        places: &Places,
        walk: &mut Walk,
    ) -> Result<(), NoMemory>
        ensures { OnOk result (Passes walk.old walk.new (found_in_places self.now walk.old context places.now) (tokens_in (written_places places.now))) }
    {
        let mut context = context;
        for place in places.iter() {
            self.place(alloc, context, place, walk)?;
            context = context.later();
        }
        Ok(())
    }

    #[cycle(walk)]
    fn place(
        &self,
        alloc: Global,
        context: Context,
        place: &Place,
        walk: &mut Walk,
    ) -> Result<(), NoMemory>
        ensures { OnOk result (Passes walk.old walk.new (found_in_places self.now walk.old context (places_of (place.now ∷ []))) (tokens_in (written_places (places_of (place.now ∷ []))))) }
    {
        match place {
            Place::Text(_) => walk.pass(1),
            Place::Block(block) => {
                walk.pass(1)?;
                self.tree(alloc, context, block, walk)?;
                walk.pass(1)
            }
            Place::Values(values) => walk.pass_block(group_tokens(alloc, values)?),
            Place::Names(names) => walk.pass_block(names.len()),
            Place::Directives(directives) => {
                walk.pass(1)?;
                self.directives(alloc, context, directives, walk)?;
                walk.pass(1)
            }
        }
    }

    #[cycle(walk)]
    fn directives(
        &self,
        alloc: Global,
        context: Context,
        directives: &Directives,
        walk: &mut Walk,
    ) -> Result<(), NoMemory>
        ensures { OnOk result (Passes walk.old walk.new (found_in_directives self.now walk.old context (directives_of directives.now)) (tokens_in (written_directives (directives_of directives.now)))) }
    {
        for directive in directives.iter() {
            self.program(
                alloc,
                &context,
                directive.prog,
                &directive.options,
                &directive.places,
                walk,
            )?;
            let inside = context.inside(alloc, directive.prog, &directive.options)?;
            self.places(alloc, inside, &directive.places, walk)?;
        }
        Ok(())
    }

    // What is found in a program or a directive itself. The walk is then behind its option words.
    fn program(
        &self,
        alloc: Global,
        context: &Context,
        program: Prog,
        options: &Words,
        places: &Places,
        walk: &mut Walk,
    ) -> Result<(), NoMemory>
        ensures { OnOk result (Passes walk.old walk.new (found_here self.now walk.old (program_lints (whole_told self.now) (known_told walk.old.known) context.now.made program options.now places.now)) (length options.now + 1)) }
    {
        let texts = place_texts(alloc, places)?;
        let mut lints = Vec::new(alloc);
        put_refused(alloc, program, options, places, &texts, &mut lints)?;
        put_differing(
            alloc,
            self.risked,
            &context.made,
            program,
            options,
            &texts,
            &mut lints,
        )?;
        put_unset(alloc, &walk.known, &Words::new(alloc), &texts, &mut lints)?;
        put_unused(alloc, self.used, program, options, places, &mut lints)?;
        self.put_findings(lints, walk)?;
        walk.pass_head(options)
    }

    // What stands behind the programs of a chain.
    fn last(
        &self,
        alloc: Global,
        context: &Context,
        last: &Last,
        walk: &mut Walk,
    ) -> Result<(), NoMemory>
        ensures { OnOk result (Passes walk.old walk.new (found_in_tree self.now walk.old context.now (last_tree last.now)) (tokens_in (written (last_tree last.now)))) }
    {
        match last {
            Last::End => Ok(()),
            Last::Command(args) => self.command(alloc, context.is_test, args, walk),
        }
    }

    fn command(
        &self,
        alloc: Global,
        is_test: bool,
        args: &Args,
        walk: &mut Walk,
    ) -> Result<(), NoMemory>
        ensures { OnOk result (Passes walk.old walk.new (found_here self.now walk.old (command_lints (known_told walk.old.known) is_test args.now)) (tokens_in args.now)) }
    {
        let texts = command_texts(alloc, args)?;
        let mut lints = Vec::new(alloc);
        put_begun(alloc, &walk.known, is_test, args, &mut lints)?;
        put_coded(alloc, &walk.known, &texts.words, &mut lints)?;
        put_loaded(args, &mut lints)?;
        put_unset(alloc, &walk.known, &texts.words, &texts.words, &mut lints)?;
        self.put_findings(lints, walk)?;
        walk.pass(texts.tokens)
    }

    // Puts the findings behind that lints of what begins here are.
    fn put_findings(&self, lints: Vec<Lint>, walk: &mut Walk) -> Result<(), NoMemory>
        ensures { OnOk result (Passes walk.old walk.new (found_here self.now walk.old lints.items) 0) }
    {
        put_all(
            self.allowances,
            self.line_at(walk.at),
            lints,
            &mut walk.findings,
        )
    }

    // The line of the token with this number.
    fn line_at(&self, at: usize) -> u32
        ensures { result ≡ line_at self.now.tokens.now at }
    {
        match self.tokens.get(at) {
            Some(token) => token_line(token),
            None => 0,
        }
    }
}

impl Walk {
    // So many tokens on. No more fit in memory than can be counted.
    fn pass(&mut self, tokens: usize) -> Result<(), NoMemory>
        ensures { OnOk result (Passes self.old self.new [] tokens) }
    {
        self.at = self.at.checked_add(tokens).ok_or(NoMemory)?;
        Ok(())
    }

    // Behind a block of so many tokens.
    fn pass_block(&mut self, tokens: usize) -> Result<(), NoMemory>
        ensures { OnOk result (Passes self.old self.new [] (tokens + 2)) }
    {
        self.pass(tokens.checked_add(2).ok_or(NoMemory)?)
    }

    // Behind a name and its option words.
    fn pass_head(&mut self, options: &Words) -> Result<(), NoMemory>
        ensures { OnOk result (Passes self.old self.new [] (length options.now + 1)) }
    {
        self.pass(options.len().checked_add(1).ok_or(NoMemory)?)
    }
}

// Puts the findings behind that lints on a line are: those that no comment allows.
fn put_all(
    allowances: &[Allowance],
    line: u32,
    lints: Vec<Lint>,
    findings: &mut Vec<Finding>,
) -> Result<(), NoMemory>
    ensures { OnOk result (findings.new.items ≡ findings.old.items ++ all_found_on allowances.now line lints.items) }
{
    for lint in lints {
        put_one(allowances, line, lint, findings)?;
    }
    Ok(())
}

fn put_one(
    allowances: &[Allowance],
    line: u32,
    lint: Lint,
    findings: &mut Vec<Finding>,
) -> Result<(), NoMemory>
    ensures { OnOk result (findings.new.items ≡ findings.old.items ++ found_on allowances.now line lint) }
{
    if !is_allowed(allowances, line, lint.name()) {
        findings.push(Finding { line, lint })?;
    }
    Ok(())
}

// Puts behind what is found in what a command begins with.
#[tactic(auto, using(crate::proofs::Walking::begun))]
fn put_begun(
    alloc: Global,
    known: &KnownNames,
    is_test: bool,
    args: &Args,
    lints: &mut Vec<Lint>,
) -> Result<(), NoMemory>
    ensures { OnOk result (lints.new.items ≡ lints.old.items ++ begun_lints (known_told known.now) is_test args.now) }
{
    match args.get(0) {
        Some(Arg::Word(word)) => {
            let text = word.as_bytes();
            put_first(alloc, known, text, lints)?;
            put_negated(alloc, is_test, text, lints)
        }
        _ => Ok(()),
    }
}

// The same of its first word.
fn put_first(
    alloc: Global,
    known: &KnownNames,
    word: &[u8],
    lints: &mut Vec<Lint>,
) -> Result<(), NoMemory>
    ensures { OnOk result (lints.new.items ≡ lints.old.items ++ first_lints (known_told known.now) word.now) }
{
    if word.contains(&b'$') {
        return put_valued(alloc, known, word, lints);
    }
    match Stranger::named(word) {
        Some(stranger) => {
            lints.push(Lint::Stranger { stranger })?;
            Ok(())
        }
        None => put_misspelled(alloc, word, lints),
    }
}

// Puts the program behind of whose name a word is a typing mistake.
fn put_misspelled(alloc: Global, word: &[u8], lints: &mut Vec<Lint>) -> Result<(), NoMemory>
    ensures { OnOk result (lints.new.items ≡ lints.old.items ++ misspelled_by (misspelled word.now) word.now) }
{
    if let Some(program) = misspelled(word) {
        lints.push(Lint::Misspelled {
            word: Bytes::from_slice(alloc, word)?,
            program,
        })?;
    }
    Ok(())
}
