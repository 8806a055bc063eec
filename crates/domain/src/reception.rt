//! What becomes of an alien packet at the one that takes it.

ghost use Rattle.std.specs.Prelude.{◌≡◌, ◌≤◌, ◌==◌, IfSome, length};
ghost use Rattle.std.specs.List.{find};
ghost use Rattle.fab_types.specs.Id.{host_of};
ghost use Rattle.tlp_view.specs.Bytes.{packet_of};
ghost use Rattle.tlp_view.specs.Malformed.{malformed};
ghost use Rattle.request_handling.specs.Dispositions.{Suits, handling};
ghost use Rattle.request_handling.specs.Requests.{at_port};
ghost use Rattle.domain.specs.Aliens.{answerer_of, at_function, at_host, completion_at_host, reception_at, reception_unless};

use crate::deliver::arriving_at;
use crate::domain::Domain;
use crate::receive::Reception;
use fab_types::{Answerer, Bdf, Origin, Parties, Place, Status};
use request_handling::{
    Disposition, Handling, Taker, at_port, discarded, request_at_function, request_at_host,
    taker_of, target_for,
};
use tlp_view::TlpView;

fn answerer_of(sender: Parties) -> Answerer
    ensures { result ≡ answerer_of sender }
{
    match sender {
        Parties::Upward(function) => Answerer::Function(function),
        Parties::Downward(_) => Answerer::Host,
        Parties::Answer(answerer, _) => answerer,
    }
}

impl Domain {
    ghost use Rattle.domain.specs.Aliens.{reception_of};

    /// What is done about these bytes, which end so.
    fn handling(&self, bytes: &[u8], disposition: Disposition) -> Handling
        requires { Suits bytes.now disposition }
        ensures { result ≡ handling self.now.share self.now.state.frames self.now.state.registers (packet_of bytes.now) disposition }
    {
        let (memory, functions) = (self.state.memory(), self.state.functions());
        disposition.handling(&self.start, memory, functions, bytes)
    }

    /// A completion of this status at the host.
    fn completion_at_host(&self, sender: Parties, view: &TlpView, status: Status) -> Reception
        ensures { result ≡ completion_at_host self.now.share self.now.state.open_tags sender view.now status }
    {
        let domain = self.start.domain();
        let these = sender;
        if target_for(these, view.requester()) != domain.host() {
            return Reception::Ends(discarded());
        }
        let tags = self.state.open_tags();
        let owner = Origin::Host(domain);
        let answerer = answerer_of(sender);
        Reception::Arrives(arriving_at(tags, view, answerer, owner, status))
    }

    #[tactic(auto, using(request_handling::proofs::Suiting::served_suits))]
    fn at_host(&self, bytes: &[u8], sender: Parties, view: &TlpView) -> Reception
        requires well_formed { malformed bytes.now ≡ None }
        requires read { view.now ≡ packet_of bytes.now }
        ensures { result ≡ at_host self.now.share self.now.state sender view.now }
    {
        match view.status() {
            Some(status) => self.completion_at_host(sender, view, status),
            None => {
                let disposition = request_at_host(&self.start, &self.table, view);
                Reception::Ends(self.handling(bytes, disposition))
            }
        }
    }

    #[tactic(auto, using(request_handling::proofs::Suiting::served_suits))]
    fn at_function(&self, function: Bdf, bytes: &[u8], sender: Parties, view: &TlpView) -> Reception
        requires well_formed { malformed bytes.now ≡ None }
        requires read { view.now ≡ packet_of bytes.now }
        ensures { result ≡ at_function self.now.share self.now.state function sender view.now }
    {
        match view.status() {
            Some(status) => {
                let tags = self.state.open_tags();
                let owner = Origin::Function(function);
                let answerer = answerer_of(sender);
                Reception::Arrives(arriving_at(tags, view, answerer, owner, status))
            }
            None => {
                let functions = self.state.functions();
                let disposition = request_at_function(&self.start, functions, function, view);
                Reception::Ends(self.handling(bytes, disposition))
            }
        }
    }

    fn reception_at(&self, bytes: &[u8], sender: Parties, view: &TlpView, taker: Taker) -> Reception
        requires well_formed { malformed bytes.now ≡ None }
        requires read { view.now ≡ packet_of bytes.now }
        ensures { result ≡ reception_at self.now.share self.now.state bytes.now sender view.now taker }
    {
        match taker {
            Taker::Host => self.at_host(bytes, sender, view),
            Taker::Function(function) => self.at_function(function, bytes, sender, view),
            Taker::Port(port) => {
                let disposition = at_port(&self.start, &port, bytes, sender);
                Reception::Ends(self.handling(bytes, disposition))
            }
            Taker::Upstream => Reception::Ends(discarded()),
        }
    }

    /// What becomes of these bytes at the one that takes them.
    fn received_by(&self, bytes: &[u8], sender: Parties, taker: Taker) -> Reception
        ensures { result ≡ reception_unless (malformed bytes.now) self.now.share self.now.state bytes.now sender taker }
    {
        match TlpView::read(bytes) {
            Ok(view) => self.reception_at(bytes, sender, &view, taker),
            Err(_) => Reception::Ends(discarded()),
        }
    }

    /// What becomes of an alien packet, if it may be taken there.
    pub(crate) fn reception(&self, place: Place, sender: Parties, bytes: &[u8]) -> Option<Reception>
        ensures value { result ≡ reception_of self.now.share self.now.state place sender bytes.now }
        ensures short { IfSome result (λ _. length bytes.now ≤ 272) }
    {
        if self.start.is_guarded() || bytes.len() > 272 {
            return None;
        }
        match taker_of(&self.start, place) {
            Some(taker) => Some(self.received_by(bytes, sender, taker)),
            None => None,
        }
    }
}
