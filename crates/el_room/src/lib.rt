//! The names that the rooms share: `specs/Vocabulary.antt` and `proofs/Vocabulary.antt` pass on those of definitions and
//! proofs, and the lines below those of code.
#![tactic(auto)]

pub use el_env::{Env, EnvFault, is_good_name};
pub use el_front::{Directive, Front, Nth, bad_key, bad_name, closed_input, nul_in, run_block};
pub use el_proc::{
    Fds, Proc, Trouble, close_handle, close_lost, code_of, first_word, gather, has_nul, input_word,
    note_kid, refused, run_own_child, start_child, take_unit, tell_unstarted, text_or_end,
};
pub use el_words::{ByteSet, Bytes, NoMemory, Prog, Word, Words, parse_u64, put_u64};
pub use el_world::{Ended, Fault, Finish, Handle, Mode, Pid, PipeEnds, Subject, World, call};
