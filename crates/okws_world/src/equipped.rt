//! Worlds that have the further objects of a server.

ghost use Rattle.std.specs.Prelude.{◌≡◌, Some, IsSome, Option};
ghost use Rattle.okws_outer.specs.declared.world.Outside.{Outside};
ghost use Rattle.okws_world.specs.declared.equipment.Objects.{Objects};

use crate::equipment::{Equipment, Objects, ObjectsOf};
use okws_outer::children::Children;
use okws_outer::conn::Conn;
use okws_outer::door::Door;
use okws_outer::files::Files;
use okws_outer::gate::Gate;
use okws_outer::keeper::Keeper;
use okws_outer::network::Network;
use okws_outer::sinks::Sinks;
use okws_outer::stores::Stores;
use okws_outer::stream::Sink;
use okws_outer::world::{Outside, World};

/// A world that has the further objects of a server too. They are taken before the world is opened,
/// and given back once it is closed: opening and closing say nothing of them.
pub trait Equipped: World {
    /// The types of the further objects.
    type Equipment: Equipment;

    /// The further objects, None while they are out.
    ghost equipment: { Self → Option (Objects Self.Equipment.Network Self.Equipment.Children Self.Equipment.Console Self.Equipment.Stores Self.Equipment.Sinks Self.Equipment.Gate) };

    /// Gives all further objects; the others stay.
    fn equip(&mut self) -> ObjectsOf<Self::Equipment>
        requires { IsSome (equipment self.old) }
        ensures given { equipment self.old ≡ Some result }
        ensures others { Self.objects self.new ≡ Self.objects self.old };

    /// Takes all further objects back; the others stay.
    fn unequip(&mut self, all: ObjectsOf<Self::Equipment>)
        ensures taken { equipment self.new ≡ Some all }
        ensures others { Self.objects self.new ≡ Self.objects self.old };
}

/// A world that holds all objects of a server.
pub struct Fitted<F, O, N, H, C, S, K, G> {
    /// The files, the printing and the seed, None while they are out.
    pub outside: Option<Outside<F, O>>,
    /// The further objects, None while they are out.
    pub further: Option<Objects<N, H, C, S, K, G>>,
}

impl<F: Drop, O: Drop, N: Drop, H: Drop, C: Drop, S: Drop, K: Drop, G: Drop> Drop
    for Fitted<F, O, N, H, C, S, K, G> {
    fn drop(self) {
        let Fitted { outside, further } = self;
        drop(outside);
        drop(further);
    }
}

impl<
    F: Files + Drop,
    O: Sink + Send + Drop,
    N: Network<Door: Door<Conn: Send>> + Drop,
    H: Children<Child: Send, Link: Send> + Send + Drop,
    C: Conn + Send + Drop,
    S: Stores<Keeper: Keeper<Pin: Send>> + Drop,
    K: Sinks + Drop,
    G: Gate + Sync + Drop,
> World for Fitted<F, O, N, H, C, S, K, G> {
    type Files = F;

    type Out = O;

    ghost objects = { λ w. w.outside };

    fn open(&mut self) -> Outside<F, O>
        requires { IsSome self.old.outside }
        ensures { self.old.outside ≡ Some result }
    {
        self.outside.take().unwrap()
    }

    fn close(&mut self, all: Outside<F, O>)
        ensures { self.new.outside ≡ Some all }
    {
        self.outside = Some(all);
    }
}

impl<
    F: Files + Drop,
    O: Sink + Send + Drop,
    N: Network<Door: Door<Conn: Send>> + Drop,
    H: Children<Child: Send, Link: Send> + Send + Drop,
    C: Conn + Send + Drop,
    S: Stores<Keeper: Keeper<Pin: Send>> + Drop,
    K: Sinks + Drop,
    G: Gate + Sync + Drop,
> Equipped for Fitted<F, O, N, H, C, S, K, G> {
    type Equipment = Objects<N, H, C, S, K, G>;

    ghost equipment = { λ w. w.further };

    fn equip(&mut self) -> Objects<N, H, C, S, K, G>
        requires { IsSome self.old.further }
        ensures given { self.old.further ≡ Some result }
        ensures others { self.new.outside ≡ self.old.outside }
    {
        self.further.take().unwrap()
    }

    fn unequip(&mut self, all: Objects<N, H, C, S, K, G>)
        ensures taken { self.new.further ≡ Some all }
        ensures others { self.new.outside ≡ self.old.outside }
    {
        self.further = Some(all);
    }
}
