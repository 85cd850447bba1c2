// The arguments: `[--state] [--names] [--part N] [--quiet] [--] DOMAIN PROBLEM PLAN`, and `--answer-on-3`, which the script `khushelvo` gives.
ghost use Rattle.std.specs.Prelude.{◌≡◌};
ghost use Rattle.std.specs.Result.{result_ok};
ghost use Rattle.program_arguments.specs.Arguments.{argument_of, option_of, size_in, right};

use crate::files;
use program_quotes::stderr;
use std::env::FillError;
use std::rt::Env;
use text_tokens::classes;
use text_words::spelling;

// What an argument is by its bytes.
#[derive(Clone, Copy)]
pub enum Argument {
    State,
    Names,
    Quiet,
    Part,
    AnswerOn3,
    End,
    File,
    Unknown,
}

// What is asked for. A file is known by the number of the argument that names it.
#[derive(Clone, Copy)]
pub struct Options {
    pub state: bool,
    pub names: bool,
    pub quiet: bool,
    // whether the answer's line goes to descriptor 3 too
    pub answer_on_3: bool,
    // how many bytes of the plan are fed at a time
    pub part: usize,
    pub domain: usize,
    pub problem: usize,
    pub plan: usize,
}

// What the arguments say, right or wrong.
#[derive(Clone, Copy, Default)]
pub struct Given {
    pub state: bool,
    pub names: bool,
    pub quiet: bool,
    pub answer_on_3: bool,
    // none if the size that was given is wrong
    pub part: Option<usize>,
    // whether the last argument was `--part`
    pub expects: bool,
    // whether all that follows is files
    pub ended: bool,
    pub domain: Option<usize>,
    pub problem: Option<usize>,
    pub plan: Option<usize>,
    // the first option that is unknown, and the first file that is too many
    pub unknown: Option<usize>,
    pub extra: Option<usize>,
}

// What is wrong with the arguments.
#[derive(Clone, Copy)]
enum Wrong {
    // these two with the number of the argument
    Unknown(usize),
    Extra(usize),
    Part,
    // so many files are given
    Files(usize),
}

#[tactic(auto, unfolding(crate::specs::Arguments::option_of, text_words::specs::Bytes::bytes))]
fn option_of(w: &[u8]) -> Argument
    ensures { result ≡ option_of w.now }
{
    if spelling::same_word(b"--state", w) {
        return Argument::State;
    }
    if spelling::same_word(b"--names", w) {
        return Argument::Names;
    }
    if spelling::same_word(b"--quiet", w) {
        return Argument::Quiet;
    }
    if spelling::same_word(b"--part", w) {
        return Argument::Part;
    }
    if spelling::same_word(b"--answer-on-3", w) {
        return Argument::AnswerOn3;
    }
    if spelling::same_word(b"--", w) {
        return Argument::End;
    }
    Argument::Unknown
}

// Options begin with a minus; a minus alone is standard input.
#[tactic(auto, unfolding(crate::specs::Arguments::argument_of))]
fn argument_of(w: &[u8]) -> Argument
    ensures { result ≡ argument_of w.now }
{
    if classes::begins_with(w, b'-') && w.len() != 1 {
        option_of(w)
    } else {
        Argument::File
    }
}

// A size of parts, from 1 to 65,536.
fn part_size(w: &[u8]) -> Option<usize>
    ensures { result ≡ size_in w.now }
{
    let mut size = 0;
    for b in w {
        if !b.is_ascii_digit() {
            return None;
        }
        size = size * 10 + usize::from(*b - b'0');
        if 65536 < size {
            return None;
        }
    }
    if size == 0 { None } else { Some(size) }
}

impl Given {
    // The files in their order.
    fn add_file(&mut self, i: usize) {
        if self.domain.is_none() {
            self.domain = Some(i);
        } else if self.problem.is_none() {
            self.problem = Some(i);
        } else if self.plan.is_none() {
            self.plan = Some(i);
        } else {
            self.extra.get_or_insert(i);
        }
    }

    // Argument i.
    fn add(&mut self, i: usize, w: &[u8]) {
        if self.expects {
            self.part = part_size(w);
            self.expects = false;
            return;
        }
        if self.ended {
            self.add_file(i);
            return;
        }
        match argument_of(w) {
            Argument::State => self.state = true,
            Argument::Names => self.names = true,
            Argument::Quiet => self.quiet = true,
            Argument::Part => self.expects = true,
            Argument::AnswerOn3 => self.answer_on_3 = true,
            Argument::End => self.ended = true,
            Argument::File => self.add_file(i),
            Argument::Unknown => {
                self.unknown.get_or_insert(i);
            }
        }
    }

    // After the last argument.
    #[tactic(auto, unfolding(crate::specs::Arguments::right))]
    fn options(self) -> Result<Options, Wrong>
        ensures { result_ok result ≡ right self }
    {
        if let Some(i) = self.unknown {
            return Err(Wrong::Unknown(i));
        }
        if let Some(i) = self.extra {
            return Err(Wrong::Extra(i));
        }
        if self.expects {
            return Err(Wrong::Part);
        }
        Ok(Options {
            state: self.state,
            names: self.names,
            quiet: self.quiet,
            answer_on_3: self.answer_on_3,
            part: self.part.ok_or(Wrong::Part)?,
            domain: self.domain.ok_or(Wrong::Files(0))?,
            problem: self.problem.ok_or(Wrong::Files(1))?,
            plan: self.plan.ok_or(Wrong::Files(2))?,
        })
    }
}

// Argument by argument. One that is longer than 4,096 bytes counts as empty.
pub fn read(rt: &impl Env) -> Given {
    let mut given = Given {
        part: Some(65536),
        ..Given::default()
    };
    let mut word = io::buffer();
    for i in 1..usize::MAX {
        match rt.arg(i, &mut word) {
            Ok(n) => given.add(i, &word[..n]),
            Err(FillError::TooLong) => given.add(i, b""),
            Err(FillError::NotPresent) => break,
        }
    }
    given
}

impl Wrong {
    // A line that says what is wrong, and one that says what is wanted.
    fn say(self, rt: &impl Env) {
        match self {
            Wrong::Unknown(i) => {
                stderr::say("khushelvo: unknown option ");
                files::say_name(rt, i);
            }
            Wrong::Extra(i) => {
                stderr::say("khushelvo: one file too many: ");
                files::say_name(rt, i);
            }
            Wrong::Part => stderr::say("khushelvo: --part wants a number from 1 to 65536"),
            Wrong::Files(n) => {
                stderr::say(format_args!("khushelvo: three files are wanted, not {n}"))
            }
        }
        stderr::say(
            "\nusage: khushelvo [--state] [--names] [--part N] [--quiet] [--] DOMAIN PROBLEM PLAN (khushelvo --help says more)\n",
        );
    }
}

impl Given {
    // What the arguments ask for; or says what is wrong with them.
    pub fn if_right(self, rt: &impl Env) -> Option<Options>
        ensures { result ≡ right self }
    {
        self.options().inspect_err(|wrong| wrong.say(rt)).ok()
    }
}
