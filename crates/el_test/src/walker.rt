//! A walk along the words of an expression, one word at a time.

ghost use Rattle.std.specs.Prelude.{◌≡◌, ◌<◌, ◌≤◌, ◌+◌, ◌-◌, nat_lt, length, drop, slice_index_or, slice_get, [], ◌∷◌, reverse, vec_len};
ghost use Rattle.el_test.specs.Operators.{joiner_named};
ghost use Rattle.el_test.specs.Walking.{look_of, walk_step, begun, joined_at, unnegated, starts_with_not, opened, Did, ended_of, answered, fresh};

use crate::fault::TestKind;
use crate::look::{look, wrong};
use crate::names::joiner_of;
use crate::operators::{Joiner, Question};
use crate::walking::{Frame, Halt, Look, Standing, Stop};
use el_words::Words;
use std::alloc::Global;

/// How many `!` and `(` may stand within one another.
const MAX_DEPTH: usize = 255;

/// What is open around the place, how the innermost level stands, how many words of the test read last are
/// still ahead, and its value.
#[derive(Drop)]
pub struct Walker {
    frames: Vec<Frame>,
    standing: Standing,
    ahead: usize,
    value: Option<bool>,
    ghost shallow: { vec_len frames ≤ 255 },
}

impl Walker {
    ghost use Rattle.el_test.specs.Walker.{walking_of};

    /// At the first word; only where `standing` is open anything is asked.
    pub fn new(alloc: Global, standing: Standing) -> Walker
        ensures { walking_of result ≡ fresh standing }
    {
        Walker {
            frames: Vec::new(alloc),
            standing,
            ahead: 0,
            value: None,
        }
    }

    /// One word further; where it answers a question, that is due on the next word.
    #[tactic(auto, unfolding(crate::specs::Walking::walk_step))]
    pub fn step(&mut self, words: &Words, place: usize) -> Result<Option<Question>, Halt>
        requires { place < length words.now }
        ensures { Did (walk_step (slice_index_or words.now place []) (drop (place + 1) words.now) (walking_of self.old)) result (walking_of self.new) }
    {
        if self.ahead > 0 {
            self.ahead -= 1;
            return Ok(None);
        }
        let left = words.len() - place;
        match self.value {
            None => self.begin(words, place),
            Some(value) => self.join(words.at(place), value, left),
        }
    }

    /// The answer to a question.
    pub fn answer(&mut self, value: bool)
        ensures { walking_of self.new ≡ answered value (walking_of self.old) }
    {
        self.value = Some(value);
    }

    /// The end of the words.
    #[tactic(auto, unfolding(crate::specs::Walking::ended_of))]
    pub fn end(&mut self) -> Result<bool, Stop>
        ensures { result ≡ ended_of (walking_of self.old) }
    {
        if self.ahead > 0 {
            return wrong(TestKind::Incomplete, 0);
        }
        match self.value {
            None => wrong(TestKind::Incomplete, 0),
            Some(value) => {
                let value = turn(&mut self.frames, value);
                if self.frames.is_empty() {
                    Ok(self.standing.value(value))
                } else {
                    wrong(TestKind::Incomplete, 0)
                }
            }
        }
    }

    // A test begins here.
    #[tactic(auto, unfolding(crate::specs::Walking::begun))]
    fn begin(&mut self, words: &Words, place: usize) -> Result<Option<Question>, Halt>
        requires { place < length words.now }
        ensures { Did (begun (look_of (slice_index_or words.now place []) (slice_get words.now (place + 1)) (slice_get words.now (place + 2)) (length words.now - place)) (walking_of self.old) (length words.now - place)) result (walking_of self.new) }
    {
        let left = words.len() - place;
        let found = look(
            words.at(place),
            words.get(place + 1),
            words.get(place + 2),
            left,
        );
        match found {
            Ok(found) => self.begin_found(found, left),
            Err(stopped) => Err(Halt::Wrong(stopped)),
        }
    }

    #[tactic(auto, unfolding(crate::specs::Walking::begun))]
    fn begin_found(&mut self, found: Look, left: usize) -> Result<Option<Question>, Halt>
        ensures { Did (begun (Ok found) (walking_of self.old) left) result (walking_of self.new) }
    {
        match found {
            Look::Compared(value) => {
                self.ahead = 2;
                self.value = Some(value);
                Ok(None)
            }
            Look::Known(value) => {
                self.ahead = 1;
                self.value = Some(value);
                Ok(None)
            }
            Look::Asks(question) => {
                self.ahead = 1;
                self.value = Some(false);
                if self.standing == Standing::Open {
                    Ok(Some(question))
                } else {
                    Ok(None)
                }
            }
            Look::Not => self.open(Frame::Not, self.standing, left),
            Look::Open => self.open(Frame::Group(self.standing), self.standing.inside(), left),
        }
    }

    // One deeper, at most 255 deep.
    fn open(
        &mut self,
        frame: Frame,
        standing: Standing,
        left: usize,
    ) -> Result<Option<Question>, Halt>
        ensures { Did (opened (nat_lt (length (walking_of self.old).frames) 255) left (record { frames = frame ∷ (walking_of self.old).frames; standing = standing; ahead = 0; value = None })) result (walking_of self.new) }
    {
        if self.frames.len() >= MAX_DEPTH {
            return Err(Halt::Wrong(Stop {
                kind: TestKind::TooDeep,
                left,
            }));
        }
        self.frames.push(frame)?;
        self.standing = standing;
        self.ahead = 0;
        self.value = None;
        Ok(None)
    }

    // A test was read, of this value.
    #[tactic(auto, unfolding(crate::specs::Walking::joined_at))]
    fn join(&mut self, word: &[u8], value: bool, left: usize) -> Result<Option<Question>, Halt>
        ensures { Did (joined_at (joiner_named word.now) (unnegated (walking_of self.old).frames value) self.old.standing left) result (walking_of self.new) }
    {
        let value = turn(&mut self.frames, value);
        match joiner_of(word) {
            Some(Joiner::And) => {
                self.standing = self.standing.behind_and(value);
                self.ahead = 0;
                self.value = None;
                Ok(None)
            }
            Some(Joiner::Or) => {
                self.standing = self.standing.behind_or(value);
                self.ahead = 0;
                self.value = None;
                Ok(None)
            }
            Some(Joiner::Close) => match self.frames.pop() {
                Some(Frame::Group(outer)) => {
                    self.value = Some(self.standing.value(value));
                    self.standing = outer;
                    self.ahead = 0;
                    Ok(None)
                }
                _ => Err(Halt::Wrong(Stop {
                    kind: TestKind::Unexpected,
                    left,
                })),
            },
            None => Err(Halt::Wrong(Stop {
                kind: TestKind::Unexpected,
                left,
            })),
        }
    }
}

// Each `!` directly before the test turns its value.
fn turn(frames: &mut Vec<Frame>, value: bool) -> bool
    ensures turned { unnegated (reverse frames.old.items) value ≡ record { frames = reverse frames.new.items; value = result } }
    ensures fewer { vec_len frames.new ≤ vec_len frames.old }
{
    let mut value = value;
    while ends_in_not(frames) {
        frames.pop();
        value = !value;
    }
    value
}

// Whether the innermost frame is a `!`.
fn ends_in_not(frames: &[Frame]) -> bool
    ensures { result ≡ starts_with_not (reverse frames.now) }
{
    match frames.last() {
        Some(Frame::Not) => true,
        Some(Frame::Group(_)) => false,
        None => false,
    }
}
