//! What was taken from the end for tunnels, the access ports and the core, as the items of a round.
ghost use Rattle.std.specs.Prelude.{◌≡◌, ◌∷◌, [], ◌+◌, ◌≤◌, ◌<◌, ◌^◌, ℕ, length};
ghost use Rattle.bng_base.specs.declared.outside.Role.{Role as RoleView};
ghost use Rattle.bng_desk.specs.Items.{kind_of};
ghost use Rattle.bng_desk.specs.Intake.{Takes};
ghost use Rattle.bng_desk.specs.Turn.{most_of, tunnel_roles, ports_up_to, data_roles};

use crate::calls::receive;
use crate::flags::both;
use crate::random::Draws;
use bng_base::{Batch, Frame, Item, ItemKind, Received, Role};
use bng_plant::Plant;
use bng_steps::Rules;

/// How many datagrams of the end for tunnels a turn takes.
const TUNNEL_MOST: usize = 224;

/// How many datagrams of the access ports a turn takes, all together.
const PORTS_MOST: usize = 224;

/// How many datagrams of the core a turn takes.
const CORE_MOST: usize = 224;

// Takes datagrams of a role into a frame until Empty, Failed or this number; each is an item, which has a copy of the frame. Says
// whether nothing was taken.
fn take_role<P: Plant>(
    plant: &mut P,
    frame: &mut Frame,
    role: Role,
    kind: ItemKind,
    most: usize,
    draws: &mut Draws,
    items: &mut Batch<Item>,
) -> bool
    requires kind { kind ≡ kind_of role }
    requires few { most ≤ 224 }
    requires room { length items.old.items + most ≤ items.old.room }
    requires drawn { draws.old.drawn < 2 ^ 61 }
    ensures takes { Takes (role ∷ []) (λ _. most) most (P.told plant.old) (P.told plant.new) draws.old draws.new items.old.items items.new.items result }
    ensures capacity { items.new.room ≡ items.old.room }
{
    let mut quiet = true;
    for _taken in 0..most {
        match receive(plant, role, frame) {
            Received::Got { from, cut } => {
                let random = draws.sixteen();
                items.push_datagram(kind, from, cut, frame, random);
                quiet = false;
            }
            Received::Empty | Received::Failed => return quiet,
        }
    }
    quiet
}

// Takes from the end for tunnels, where there is one.
fn take_tunnel<P: Plant>(
    serves: bool,
    plant: &mut P,
    frame: &mut Frame,
    draws: &mut Draws,
    items: &mut Batch<Item>,
) -> bool
    requires room { length items.old.items + 224 ≤ items.old.room }
    requires drawn { draws.old.drawn < 2 ^ 60 }
    ensures takes { (most : RoleView → ℕ) → most Role.Tunnel ≡ 224
        → Takes (tunnel_roles serves) most 224 (P.told plant.old) (P.told plant.new) draws.old draws.new items.old.items items.new.items result }
    ensures few { length items.new.items ≤ length items.old.items + 224 }
    ensures few_drawn { draws.new.drawn ≤ draws.old.drawn + 224 }
    ensures capacity { items.new.room ≡ items.old.room }
{
    if serves {
        take_role(
            plant,
            frame,
            Role::Tunnel,
            ItemKind::Tunnel,
            TUNNEL_MOST,
            draws,
            items,
        )
    } else {
        true
    }
}

// Takes from each access port in its order.
fn take_ports<P: Plant>(
    rules: &Rules,
    plant: &mut P,
    frame: &mut Frame,
    draws: &mut Draws,
    items: &mut Batch<Item>,
) -> bool
    requires some { 1 ≤ length rules.now.access }
    requires few { length rules.now.access ≤ 16 }
    requires room { length items.old.items + 224 ≤ items.old.room }
    requires drawn { draws.old.drawn < 2 ^ 60 }
    ensures takes { Takes (ports_up_to (length rules.now.access)) (most_of rules.now) 224 (P.told plant.old) (P.told plant.new) draws.old draws.new items.old.items items.new.items result }
    ensures capacity { items.new.room ≡ items.old.room }
{
    let ports = rules.access.as_slice().len();
    let most = PORTS_MOST / ports;
    let mut quiet = true;
    for place in 0..ports {
        let number = place as u8 + 1;
        let read = take_role(
            plant,
            frame,
            Role::Access(number),
            ItemKind::Access(number),
            most,
            draws,
            items,
        );
        quiet = both(quiet, read);
    }
    quiet
}

/// Takes from the end for tunnels, where there is one, from the access ports and then from the core, into a frame, and says whether
/// nothing was taken.
pub(crate) fn take_data<P: Plant>(
    rules: &Rules,
    plant: &mut P,
    frame: &mut Frame,
    draws: &mut Draws,
    items: &mut Batch<Item>,
) -> bool
    requires some { 1 ≤ length rules.now.access }
    requires few { length rules.now.access ≤ 16 }
    requires room { length items.old.items + 672 ≤ items.old.room }
    requires drawn { draws.old.drawn + 224 < 2 ^ 60 }
    ensures takes { Takes (data_roles rules.now) (most_of rules.now) 672 (P.told plant.old) (P.told plant.new) draws.old draws.new items.old.items items.new.items result }
    ensures few { length items.new.items ≤ length items.old.items + 672 }
    ensures few_drawn { draws.new.drawn ≤ draws.old.drawn + 672 }
    ensures capacity { items.new.room ≡ items.old.room }
{
    let tunnel = take_tunnel(rules.serves_tunnels, plant, frame, draws, items);
    let ports = take_ports(rules, plant, frame, draws, items);
    let core = take_role(
        plant,
        frame,
        Role::Core,
        ItemKind::Core,
        CORE_MOST,
        draws,
        items,
    );
    let others = both(ports, core);
    both(tunnel, others)
}
