// What calls send.
ghost use Rattle.std.specs.Prelude.{◌≡◌, ℕ, ◌<◌, ◌∷◌, All, List, Some, OnErr, OnOk, false};
ghost use Rattle.std.specs.declared.option.Option.{Option};
ghost use Rattle.ec_brick.specs.Fit.{IsFit};
ghost use Rattle.ec_cluster.specs.Sound.{IsSound};
ghost use Rattle.ec_cluster.specs.Views.{size_of};
ghost use Rattle.ec_clients.specs.Calls.{tabled};
ghost use Rattle.ec_clients.specs.Frames.{released_by, with_released};
ghost use Rattle.ec_clients.specs.Going.{Going, SendsAll, SendsRest};
ghost use Rattle.ec_clients.specs.Steps.{AreOfCourse, Breaks};
ghost use Rattle.ec_clients.specs.Views.{is_released};
ghost use Rattle.ec_conduct.specs.Table.{Send};
ghost use Rattle.ec_wire.specs.declared.answer.Answer.{Answer as AnswerOf};

use crate::clients::Clients;
use ec_cluster::Cluster;
use ec_txn::{Call, Sends};
use ec_wire::Request;
use std::alloc::AllocError;

/// The ask that a request releases.
fn released_by(request: &Request) -> Option<u64>
    ensures { result ≡ released_by request.now }
{
    match request {
        Request::Release { grant, .. } => Some(*grant),
        _ => None,
    }
}

impl<C> Clients<C> {
    /// Takes down that an ask is released, where the request does so. No call releases an ask twice: a call that did
    /// would have kept its conduct no longer, and is refused as if there were no memory.
    fn take_down(&mut self, request: &Request) -> Result<(), AllocError>
        ensures first { OnOk result ((n : ℕ) → released_by request.now ≡ Some n → is_released self.old n ≡ false) }
        ensures released { OnOk result ((i : ℕ) → is_released self.new i ≡ with_released (is_released self.old) (released_by request.now) i) }
        ensures same { self.new ≡ record self.old { released = self.new.released } }
    {
        if let Some(grant) = released_by(request) {
            if self.released.contains(&grant) {
                return Err(AllocError);
            }
            let _ = self.released.insert(grant)?;
        }
        Ok(())
    }
}

/// Sends one request of a client's call.
fn send_one<T, C: Call<T>>(
    clients: &mut Clients<C>,
    cluster: &mut Cluster,
    call: u32,
    client: u8,
    brick: u8,
    request: Request,
) -> Result<(), AllocError>
    requires sound { IsSound cluster.old }
    requires to { brick < size_of cluster.old }
    requires fit { IsFit request }
    ensures ok { OnOk result ((rest : List Send) → SendsRest C.stands (tabled C.begins C.goes) cluster.old cluster.new clients.old clients.new call client ((brick, request) ∷ rest) rest) }
    ensures err { OnErr result ((x : C) (rest : List Send) (answer : Option AnswerOf) → Breaks clients.old.options.geometry AreOfCourse (Going C.stands (tabled C.begins C.goes) cluster.old clients.old call client x ((brick, request) ∷ rest) answer) cluster.old cluster.new) }
{
    clients.take_down(&request)?;
    cluster.send(call, client, brick, request)
}

/// Sends the requests of a client's call, one after another.
pub(crate) fn send_all<T, C: Call<T>>(
    clients: &mut Clients<C>,
    cluster: &mut Cluster,
    call: u32,
    client: u8,
    sends: &Sends,
) -> Result<(), AllocError>
    requires sound { IsSound cluster.old }
    requires to { All (λ s. s.0 < size_of cluster.old) sends.now }
    requires fit { All (λ s. IsFit s.1) sends.now }
    ensures ok { OnOk result (SendsAll C.stands (tabled C.begins C.goes) cluster.old cluster.new clients.old clients.new call client sends.now) }
    ensures err { OnErr result ((x : C) (answer : Option AnswerOf) → Breaks clients.old.options.geometry AreOfCourse (Going C.stands (tabled C.begins C.goes) cluster.old clients.old call client x sends.now answer) cluster.old cluster.new) }
{
    for send in sends.items() {
        let request = send.1.copy()?;
        send_one::<T, C>(clients, cluster, call, client, send.0, request)?;
    }
    Ok(())
}
