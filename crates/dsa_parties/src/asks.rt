//! What the parties of a script ask for where they stand, and where they stand after a move.

ghost use Rattle.std.specs.Prelude.{◌≡◌, slice_get};
ghost use Rattle.dsa_parties.specs.Offers.{engine_moves_of, has_engine, may_give, moves_of, next_member, spare_label};
ghost use Rattle.dsa_parties.specs.Scripts.{submission_at};
ghost use Rattle.dsa_parties.specs.Standing.{act_of, next_act, stand_of, standing_after, turn_from, turn_of};
ghost use Rattle.dsa_parties.specs.Watches.{moved_by};

use crate::places::{ClientPlace, ClientTurn, Move, NextMember, Places};
use crate::script::{Act, ClientScript, Origin, Script, Submission};
use crate::watches::Shown;
use dsa_book::{BatchNote, Reply};
use dsa_desc::Outcome;

impl Script {
    /// The label that no entry has; so many have one.
    pub fn spare_label(&self) -> u32
        ensures { result ≡ spare_label self.now }
    {
        self.entries.len() as u32
    }

    /// The submission with this label.
    pub fn submission(&self, label: u32) -> Option<Submission>
        ensures { result ≡ submission_at self.now.entries.items label }
    {
        let entry = self.entries.get(label as usize).copied()?;
        match entry.origin {
            Origin::Submitted(submission) => Some(submission),
            Origin::Fetched { .. } => None,
        }
    }

    /// What a client that stands there submits next, if it is not through.
    pub fn turn_from(&self, client: ClientScript, place: ClientPlace) -> Option<ClientTurn>
        ensures { result ≡ turn_from self.now client place }
    {
        let next = client.part.next_in(place.next)?;
        let entry = self.entries.get(next as usize).copied()?;
        entry.turn_with(client.number, place)
    }

    /// What this client of the script submits next, if it is not through.
    pub fn turn(&self, places: &Places, client: u16) -> Option<ClientTurn>
        ensures { result ≡ turn_of self.now (stand_of places.now) client }
    {
        let script = self.clients.get(client as usize).copied()?;
        let place = places.clients.get(client as usize).copied()?;
        self.turn_from(script, place)
    }

    /// The number of what this administrator of the script does next, if it is not through.
    pub fn next_act(&self, places: &Places, administrator: u16) -> Option<u32>
        ensures { result ≡ next_act self.now (stand_of places.now) administrator }
    {
        let part = self.administrators.get(administrator as usize).copied()?;
        let next = places.administrators.get(administrator as usize).copied()?;
        part.next_in(next)
    }

    /// What this administrator of the script does next, if it is not through.
    pub fn act(&self, places: &Places, administrator: u16) -> Option<Act>
        ensures { result ≡ act_of self.now (stand_of places.now) administrator }
    {
        let next = self.next_act(places, administrator)?;
        self.acts.get(next as usize).copied()
    }

    /// The member that is fetched next for the batch of this note, which has the batch's label in
    /// place of its name.
    pub fn next_member(&self, note: &BatchNote) -> Option<NextMember>
        ensures { result ≡ next_member self.now.entries.items note.now }
    {
        if note.closed || note.fetched >= note.count {
            return None;
        }
        let submission = self.submission(note.batch)?;
        if note.fetched >= submission.members {
            return None;
        }
        let label = note.batch as usize + 1 + note.fetched as usize;
        let entry = self.entries.get(label).copied()?;
        Some(NextMember {
            label: label as u32,
            desc: entry.desc,
        })
    }

    /// Whether an engine may give this outcome to the entry with this label.
    pub fn may_give(&self, label: u32, outcome: Outcome) -> bool
        ensures { result ≡ may_give self.now.entries.items label outcome }
    {
        match self.entries.get(label as usize).copied() {
            Some(entry) => entry.outcomes.allows(outcome),
            None => false,
        }
    }

    /// Whether the engine makes steps.
    pub fn has_engine(&self, engine: u16) -> bool
        ensures { result ≡ has_engine self.now engine }
    {
        self.engines.iter().any(|each| *each == engine)
    }

    /// The client has gone on after this answer, or stands where it did.
    pub fn move_client(&self, places: &mut Places, client: u16, reply: &Reply)
        ensures { stand_of places.new
            ≡ standing_after self.now (stand_of places.old) (Move.Client client) reply.now }
    {
        if let Some(turn) = self.turn(places, client) {
            places.clients[client as usize] = turn.place_after(reply);
        }
    }

    /// The administrator has gone on after this answer, or stands where it did.
    pub fn move_administrator(&self, places: &mut Places, administrator: u16, reply: &Reply)
        ensures { stand_of places.new
            ≡ standing_after self.now (stand_of places.old) (Move.Administrator administrator)
            reply.now }
    {
        if let Some(next) = self.next_act(places, administrator) {
            if let Some(act) = self.acts.get(next as usize).copied() {
                places.administrators[administrator as usize] = act.after(reply, next);
            }
        }
    }

    /// Whoever made the move has gone on after this answer, or stands where it did.
    pub fn move_party(&self, places: &mut Places, made: Move, reply: &Reply)
        ensures { stand_of places.new
            ≡ standing_after self.now (stand_of places.old) made reply.now }
    {
        match made {
            Move::Client(client) => self.move_client(places, client, reply),
            Move::Administrator(administrator) => {
                self.move_administrator(places, administrator, reply)
            }
            _ => {}
        }
    }

    /// Where all stand after a step, and what they remember.
    pub fn make_move(&self, places: &mut Places, shown: &Shown<'_>)
        ensures { stand_of places.new
            ≡ moved_by self.now (stand_of places.old) shown.now.made shown.now.reply
            shown.now.ends.now }
    {
        self.remember(places, shown);
        self.move_party(places, shown.made, &shown.reply);
    }

    /// The move of this number, among all but those that end an entry; none has a greater number.
    #[tactic(auto, using(crate::proofs::MoveNumbers::client_number))]
    pub fn move_at(&self, number: usize) -> Option<Move>
        ensures { result ≡ slice_get (moves_of self.now) number }
    {
        let clients = self.clients.len();
        let administrators = self.administrators.len();
        if number < clients {
            return Some(Move::Client(number as u16));
        }
        let behind = number - clients;
        if behind < administrators {
            return Some(Move::Administrator(behind as u16));
        }
        self.engine_move_at(behind - administrators)
    }

    /// The same among the moves of engines alone.
    pub fn engine_move_at(&self, number: usize) -> Option<Move>
        ensures { result ≡ slice_get (engine_moves_of self.now) number }
    {
        let engines = self.engines.len();
        if number < engines {
            return Some(Move::Dispatch {
                engine: self.engines[number],
            });
        }
        let behind = number - engines;
        if behind < engines {
            return Some(Move::Fetch {
                engine: self.engines[behind],
            });
        }
        let last = behind - engines;
        if last < engines {
            return Some(Move::Start {
                engine: self.engines[last],
            });
        }
        None
    }
}
