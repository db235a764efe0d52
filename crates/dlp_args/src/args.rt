// Arguments that are lent from a message.
ghost use Rattle.std.specs.Prelude.{◌≡◌};
ghost use Rattle.std.specs.Iterator.{item_count, YieldsFirstBy};

use crate::argument::find_argument;
use std::marker::Model;

/// An argument: its id, from 0x20 to 0x3F, and its bytes, lent from the message.
#[derive(Clone, Copy)]
pub struct Arg<'a> {
    pub id: u8,
    pub bytes: &'a [u8],
}

/// The arguments of a message, in order, lent from it.
#[derive(Drop)]
pub struct Args<'a> {
    count: u8,
    bytes: &'a [u8],
}

impl<'a> Model for Args<'a> {
    ghost use Rattle.std.specs.Prelude.{List};
    ghost use Rattle.dlp_args.specs.Arguments.{Argument};
    ghost use Rattle.dlp_args.specs.Reading.{arguments_in};

    ghost Value = { List Argument };

    ghost view = { λ args. arguments_in args.count args.bytes.now };
}

impl<'a> Args<'a> {
    ghost use Rattle.dlp_args.specs.Reading.{arguments_in};
    ghost use Rattle.dlp_args.specs.Views.{args_left};

    // The arguments at the front of the bytes, at most so many.
    pub(crate) fn of(count: u8, bytes: &'a [u8]) -> Args<'a>
        ensures { result ≡ arguments_in count bytes.now }
    {
        Args { count, bytes }
    }

    /// Lends each of them in order.
    pub fn iter(&self) -> ArgIter<'a>
        ensures { args_left result ≡ self.now }
    {
        ArgIter {
            count: self.count,
            bytes: self.bytes,
        }
    }
}

/// Goes over arguments in order.
#[derive(Drop)]
pub struct ArgIter<'a> {
    count: u8,
    bytes: &'a [u8],
}

impl<'a> Iterator for ArgIter<'a> {
    ghost use Rattle.std.specs.Iterator.{item_count, YieldsFirstBy};
    ghost use Rattle.dlp_args.specs.Views.{arg_view, args_left};

    type Item = Arg<'a>;

    ghost next_gives = { YieldsFirstBy arg_view args_left };

    ghost remaining = { item_count args_left };

    #[tactic(auto, using(crate::proofs::FrontLaws::left_none, crate::proofs::FrontLaws::left_err, crate::proofs::FrontLaws::left_ok))]
    fn next(&mut self) -> Option<Arg<'a>> {
        if self.count == 0 {
            return None;
        }
        match find_argument(0, self.bytes) {
            Err(_) => {
                self.count = 0;
                None
            }
            Ok((arg, rest)) => {
                self.count -= 1;
                self.bytes = rest;
                Some(arg)
            }
        }
    }
}
