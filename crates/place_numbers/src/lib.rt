//! The numbers of one host: what it has seen, and the ids and numbers that it draws above that.
//!
//! A host draws the least number above all that it has seen which leaves the host when divided by 16, so two hosts never
//! draw one number, and what a host draws after a reply is above what the reply showed (after Lamport 1978).
#![tactic(auto)]

ghost use Rattle.std.specs.Prelude.{◌≡◌, ◌<◌};
ghost use Rattle.raid_base.specs.Numbers.{number, greater, draw, seen_drawn, sees, sees_note};

use raid_base::{HostNo, Note, Number, Reply, Spent, next_number};

/// A host, and the greatest number that it has seen or drawn.
#[derive(Debug, Drop)]
pub struct Numbers {
    host: HostNo,
    seen: Number,
    pub ghost is_host: { host.0 < 16 },
}

/// The greater of two numbers.
fn greater(number: Number, other: Number) -> Number
    ensures { result ≡ greater number other }
{
    Number(number.0.max(other.0))
}

/// What is seen once the origin of a seized note is seen too.
fn sees_note(seen: Number, note: Option<Note>) -> Number
    ensures { result ≡ sees_note seen note }
{
    match note {
        Some(note) => greater(seen, note.origin),
        None => seen,
    }
}

/// What is seen once a reply is: the two numbers of a grant and the origin of a note that it seized, the number that a
/// late request has to be above, and the floor of a missing slot. The id of a holder isn't seen.
fn sees(seen: Number, reply: &Reply) -> Number
    ensures { result ≡ sees seen reply.now }
{
    match *reply {
        Reply::Granted {
            read_no,
            write_no,
            seized,
            ..
        } => sees_note(greater(seen, greater(read_no, write_no)), seized),
        Reply::Late { above } => greater(seen, above),
        Reply::Missing { floor } => greater(seen, floor),
        _ => seen,
    }
}

impl Numbers {
    /// A host that has seen nothing.
    pub fn new(host: HostNo) -> Self
        requires { host.0 < 16 }
        ensures host { result.host ≡ host }
        ensures seen { result.seen ≡ number 0 }
    {
        Numbers {
            host,
            seen: Number(0),
        }
    }

    /// Sees a number.
    pub fn see(&mut self, number: Number)
        ensures { self.new ≡ record self.old { seen = greater self.old.seen number } }
    {
        self.seen = greater(self.seen, number);
    }

    /// Sees the numbers that a reply shows.
    pub fn hear(&mut self, reply: &Reply)
        ensures { self.new ≡ record self.old { seen = sees self.old.seen reply.now } }
    {
        self.seen = sees(self.seen, reply);
    }

    /// The next number of the host, which it then has seen. `Spent` where none is left, with nothing changed.
    pub fn draw(&mut self) -> Result<Number, Spent>
        ensures value { result ≡ draw self.old.host self.old.seen }
        ensures new { self.new ≡ record self.old { seen = seen_drawn self.old.seen (draw self.old.host self.old.seen) } }
    {
        match next_number(self.host, self.seen) {
            Some(number) => {
                self.seen = number;
                Ok(number)
            }
            None => Err(Spent { seen: self.seen }),
        }
    }

    /// The greatest number that it has seen or drawn.
    pub fn seen(&self) -> Number
        ensures { result ≡ self.now.seen }
    {
        self.seen
    }
}

#[cfg(test)]
mod tests {
    use super::*;
    use raid_base::NUMBERS_END;

    #[test]
    fn draws_above_what_was_seen(rt: HostRuntime) {
        let mut numbers = Numbers::new(HostNo(3));
        assert_eq!(rt; numbers.draw(), Ok(Number(3)));
        assert_eq!(rt; numbers.draw(), Ok(Number(19)));
        numbers.see(Number(7));
        assert_eq!(rt; numbers.seen(), Number(19));
        numbers.hear(&Reply::Late { above: Number(40) });
        assert_eq!(rt; numbers.draw(), Ok(Number(51)));
        numbers.see(Number(NUMBERS_END - 1));
        let spent = Spent {
            seen: Number(NUMBERS_END - 1),
        };
        assert_eq!(rt; numbers.draw(), Err(spent));
        assert_eq!(rt; numbers.seen(), Number(NUMBERS_END - 1));
    }

    #[test]
    fn hears_what_a_reply_shows(rt: HostRuntime) {
        let note = Note {
            host: HostNo(2),
            id: Number(90),
            origin: Number(34),
            mask: 1,
            moment: 5,
        };
        let replies = [
            (Reply::Busy { holder: note }, 0),
            (Reply::Missing { floor: Number(9) }, 9),
            (Reply::Done, 9),
            (
                Reply::Granted {
                    cell: None,
                    read_no: Number(12),
                    write_no: Number(11),
                    last: Number(77),
                    life: 0,
                    seized: None,
                },
                12,
            ),
            (
                Reply::Granted {
                    cell: None,
                    read_no: Number(13),
                    write_no: Number(14),
                    last: Number(77),
                    life: 0,
                    seized: Some(note),
                },
                34,
            ),
        ];
        let mut numbers = Numbers::new(HostNo(1));
        for (reply, seen) in &replies {
            numbers.hear(reply);
            assert_eq!(rt; numbers.seen(), Number(*seen));
        }
    }
}
