ghost use Rattle.std.specs.Prelude.{◌≡◌, refl};
ghost use Rattle.std.proofs.Common.{◌∙◌};
ghost use Rattle.bng_base.specs.Stretch.{ExtendsPlant};
ghost use Rattle.bng_base.proofs.StretchLaws.{plant_stays, plant_more};

use crate::trunk_plant::TrunkPlant;
use bng_base::{Frame, Peer, Received, Role};
use bng_plant::{Bound, Plant, Sending};

/// A plant that tells, under trunks: what a call adds is what it tells more.
#[derive(Drop)]
pub struct Telling<'a, P: Plant> {
    pub plant: &'a mut P,
}

impl<'a, P: Plant> TrunkPlant for Telling<'a, P> {
    ghost told = { λ v. P.told v.plant.now };

    ghost adds = { λ v s w. (v.plant.ghost_name ≡ w.plant.ghost_name) × ExtendsPlant (P.told v.plant.now) (P.told w.plant.now) s };

    fn bind(&mut self, role: Role, local: Peer, remote: Option<Peer>) -> Bound {
        self.plant.bind(role, local, remote)
    }

    fn recv(&mut self, role: Role, into: &mut Frame) -> Received {
        self.plant.recv(role, into)
    }

    fn send(&mut self, role: Role, to: Peer, bytes: &[u8]) -> Sending {
        self.plant.send(role, to, bytes)
    }

    fn wait(&mut self, ms: u32) {
        self.plant.wait(ms);
    }

    ghost none = { λ v. (refl, plant_stays (P.told v.plant.now)) };

    ghost more = { λ p q r a b x y. (x.0 ∙ y.0, plant_more (P.told p.plant.now) (P.told q.plant.now) (P.told r.plant.now) a b x.1 y.1) };

    ghost tells = { λ p q a x. x.1 };
}
