//! The cluster: each node under a lock of its own, and the trail under another.
ghost use Rattle.std.specs.Prelude.{◌≡◌, ◌≢◌, ◌<◌, ◌≤◌, ◌++◌, ◌∷◌, [], ◌⊎◌, ◌↔◌};
ghost use Rattle.std.specs.Prelude.{IfOk, OnOk, OnErr, IsTrue, true, false, is_some, nat_lt, vec_capacity, length};
ghost use Rattle.cluster_admin.specs.Commands.{AreMovable, IsCommand};
ghost use Rattle.cluster_node.specs.Administration.{IsSetting};
ghost use Rattle.cluster_admin.specs.declared.admin.AdminCommand.TheVariants.{Migrate};
ghost use Rattle.cluster_admin.specs.declared.admin.AdminFault.TheVariants.{UnknownNode, SameNode};
ghost use Rattle.cluster_admin.specs.Telling.{survey_after};
ghost use Rattle.cluster_admin.specs.Surveys.{row_at};
ghost use Rattle.cluster_world.specs.Worlds.{survey_of};
ghost use Rattle.cluster_world.specs.declared.event.Event.TheVariants.{Client, Look};
ghost use Rattle.shared_trail.specs.Reading.{IsToldOf};
ghost use Rattle.shared_trail.specs.Surveying.{AddsTable, row_by_calls};

use crate::free_seats::{FreeAdminSeat, FreeSeats, NoSeat, SeatTaken};
use crate::gate::Gate;
use crate::node_locks::NodeLocks;
use byte_texts::Memory;
use cluster_node::{AdminCommand, AdminFault, AdminReply, KeyList, Node};
use cluster_world::{PortFault, Survey};
use key_slots::{NodeId, OwnerTable};
use resp2_wire::Reply;
use shared_trail::{
    AdminSeat, ClientSeat, ClusterBrand, LockedNode, LockedTrail, NodeReader, SeatTable, call_on,
    look_on, matches_on, move_on, read_on, refuse_on, set_on, spin_then_lock, survey_on,
};
use slot_marks::SlotTable;
use std::marker::PhantomData;
use std::sync::{Mutex, Wait};
use store_commands::Command;

/// What is done with the place of the lock of the node. Its number stands in the lock's type, so each number has an arm
/// of its own: they are written here, and nowhere else.
macro_rules! at_lock {
    ($locks:expr, $node:expr, |$place:ident| $done:expr) => {
        match $node.get() {
            0 => {
                let $place = &$locks.n0;
                $done
            }
            1 => {
                let $place = &$locks.n1;
                $done
            }
            2 => {
                let $place = &$locks.n2;
                $done
            }
            3 => {
                let $place = &$locks.n3;
                $done
            }
            4 => {
                let $place = &$locks.n4;
                $done
            }
            5 => {
                let $place = &$locks.n5;
                $done
            }
            6 => {
                let $place = &$locks.n6;
                $done
            }
            _ => {
                let $place = &$locks.n7;
                $done
            }
        }
    };
}

/// A running cluster of one to eight nodes, which threads may share.
///
/// Each node is under a lock of its own, and the trail of all events under another. A call takes its node's lock first
/// and the trail's after it, MIGRATE the two nodes' in ascending order and then the trail's. Only a call that gives a
/// seat takes the lock of the seats, and no other beside it. So locks are always taken in one order: nodes' in
/// ascending order, and the trail's last. That no call waits for ever is not claimed by any contract.
pub type LiveCluster<B> = Cluster<B, SeatTable<B>, LockedTrail<B>, FreeSeats<B>, FreeAdminSeat<B>>;

/// A running cluster, of these types of what holds events. They are parameters so that `Sync` of a cluster follows from
/// `Send` of each by itself.
#[derive(Drop)]
pub struct Cluster<B: ClusterBrand, K, T, S, A> {
    pub(crate) of: PhantomData<B>,
    pub(crate) table: K,
    pub(crate) locks: NodeLocks<B>,
    pub(crate) trail: Mutex<T>,
    pub(crate) free_seats: Mutex<S>,
    pub(crate) free_admin_seat: Mutex<A>,
    /// The room for the nodes when the cluster is closed.
    pub(crate) row: Vec<Node>,
    pub(crate) count: u8,
    pub(crate) base_port: u16,
    ghost empty: { row.items ≡ [] },
    ghost room: { length B.setup.opening.nodes ≤ vec_capacity row },
    ghost counted: { count ≡ length B.setup.opening.nodes },
    ghost ported: { base_port ≡ B.setup.opening.base_port },
    ghost low: { base_port ≤ 65528 },
    ghost some: { 1 ≤ count },
    ghost few: { length B.setup.opening.nodes ≤ 8 },
}

impl<B: ClusterBrand> LiveCluster<B> {
    /// The next client's seat, of 32: `NoSeat` once all were given, since a seat is never given twice.
    pub fn client_seat<R: Wait>(&self, rt: &R) -> Result<ClientSeat<B>, NoSeat>
        ensures { IfOk result (λ s. (s.0 < 32) × (s.1 ≡ [])) }
    {
        self.free_seats.lock(rt).next()
    }

    /// The administrator's seat: `SeatTaken` from the second call on.
    pub fn admin_seat<R: Wait>(&self, rt: &R) -> Result<AdminSeat<B>, SeatTaken>
        ensures { IfOk result (λ s. s ≡ []) }
    {
        self.free_admin_seat.lock(rt).take()
    }

    /// How many nodes there are.
    pub fn nodes(&self) -> u8
        ensures value { result ≡ length B.setup.opening.nodes }
        ensures least { 1 ≤ result }
        ensures most { result ≤ 8 }
    {
        self.count
    }

    /// The port of the first node.
    pub fn base_port(&self) -> u16
        ensures value { result ≡ B.setup.opening.base_port }
        ensures most { result ≤ 65528 }
    {
        self.base_port
    }

    fn call_at<const N: u8, R: Wait, G: Gate>(
        &self,
        rt: &R,
        place: &Option<Mutex<LockedNode<B, N>>>,
        seat: &mut ClientSeat<B>,
        node: NodeId,
        asking: bool,
        command: Command,
        gate: &G,
    ) -> Result<Reply, Memory>
        requires place { is_some place.now ≡ true }
        requires node { node ≡ N }
        ensures call { IfOk result
            (λ r. seat.new ≡ (seat.old.0, seat.old.1 ++ Client seat.old.0 N asking command r ∷ [])) }
        ensures err { OnErr result (seat.new ≡ seat.old) }
    {
        let Some(lock) = place else { unreachable!() };
        let mut guard = spin_then_lock(rt, lock);
        let locked = &mut *guard;
        gate.pass(locked.node());
        match locked.node().prepare_client(asking, &command) {
            Ok(change) => call_on(
                rt,
                &self.table,
                &self.trail,
                locked,
                seat,
                node,
                asking,
                command,
                change,
            ),
            Err(fault) => {
                // Dropped by name, the command is one call to the proof, and not each of its forms.
                drop(command);
                Err(fault)
            }
        }
    }

    /// SeatGrows: a client's command at the node, sent with ASKING or without. The locked node is lent to the gate,
    /// before the command is prepared. Where memory runs out nothing happened: node, trail and seat are as they were.
    pub fn call<R: Wait, G: Gate>(
        &self,
        rt: &R,
        seat: &mut ClientSeat<B>,
        node: NodeId,
        asking: bool,
        command: Command,
        gate: &G,
    ) -> Result<Reply, Memory>
        requires { node < length B.setup.opening.nodes }
        ensures call { IfOk result
            (λ r. seat.new ≡ (seat.old.0, seat.old.1 ++ Client seat.old.0 node asking command r ∷ [])) }
        ensures err { OnErr result (seat.new ≡ seat.old) }
    {
        at_lock!(
            self.locks,
            node,
            |place| self.call_at(rt, place, seat, node, asking, command, gate)
        )
    }

    fn look_at<const N: u8, R: Wait>(
        &self,
        rt: &R,
        place: &Option<Mutex<LockedNode<B, N>>>,
        seat: &mut ClientSeat<B>,
        node: NodeId,
    ) -> Result<Reply, Memory>
        requires place { is_some place.now ≡ true }
        requires node { node ≡ N }
        ensures call { IfOk result (λ r. seat.new ≡ (seat.old.0, seat.old.1 ++ Look seat.old.0 N r ∷ [])) }
        ensures err { OnErr result (seat.new ≡ seat.old) }
    {
        let Some(lock) = place else { unreachable!() };
        let mut guard = spin_then_lock(rt, lock);
        let locked = &mut *guard;
        let reply = locked.node().look()?;
        look_on(rt, &self.table, &self.trail, locked, seat, node, reply)
    }

    /// SeatGrows: CLUSTER SLOTS at the node. Where memory runs out nothing happened.
    pub fn look<R: Wait>(
        &self,
        rt: &R,
        seat: &mut ClientSeat<B>,
        node: NodeId,
    ) -> Result<Reply, Memory>
        requires { node < length B.setup.opening.nodes }
        ensures call { IfOk result (λ r. seat.new ≡ (seat.old.0, seat.old.1 ++ Look seat.old.0 node r ∷ [])) }
        ensures err { OnErr result (seat.new ≡ seat.old) }
    {
        at_lock!(
            self.locks,
            node,
            |place| self.look_at(rt, place, seat, node)
        )
    }

    fn set_at<const N: u8, R: Wait>(
        &self,
        rt: &R,
        place: &Option<Mutex<LockedNode<B, N>>>,
        seat: &mut AdminSeat<B>,
        node: NodeId,
        command: AdminCommand,
    ) -> Result<AdminReply, Memory>
        requires place { is_some place.now ≡ true }
        requires node { node ≡ N }
        requires setting { IsSetting command }
        ensures call { IfOk result
            (λ r. seat.new ≡ seat.old ++ record { node = N; command = command; reply = r } ∷ []) }
        ensures err { OnErr result (seat.new ≡ seat.old) }
    {
        let Some(lock) = place else { unreachable!() };
        let mut guard = spin_then_lock(rt, lock);
        set_on(
            rt,
            &self.table,
            &self.trail,
            &mut *guard,
            seat,
            node,
            command,
        )
    }

    fn set<R: Wait>(
        &self,
        rt: &R,
        seat: &mut AdminSeat<B>,
        node: NodeId,
        command: AdminCommand,
    ) -> Result<AdminReply, Memory>
        requires there { node < length B.setup.opening.nodes }
        requires setting { IsSetting command }
        ensures call { IfOk result
            (λ r. seat.new ≡ seat.old ++ record { node = node; command = command; reply = r } ∷ []) }
        ensures err { OnErr result (seat.new ≡ seat.old) }
    {
        at_lock!(
            self.locks,
            node,
            |place| self.set_at(rt, place, seat, node, command)
        )
    }

    /// SeatGrows: the administrator's command at the node: SETSLOT and GETKEYSINSLOT take the lock of that node,
    /// MIGRATE those of both. Where memory runs out nothing happened.
    pub fn admin<R: Wait>(
        &self,
        rt: &R,
        seat: &mut AdminSeat<B>,
        node: NodeId,
        command: AdminCommand,
    ) -> Result<AdminReply, Memory>
        requires there { node < length B.setup.opening.nodes }
        requires command { IsCommand command }
        ensures call { IfOk result
            (λ r. seat.new ≡ seat.old ++ record { node = node; command = command; reply = r } ∷ []) }
        ensures err { OnErr result (seat.new ≡ seat.old) }
    {
        match command {
            AdminCommand::Migrate(keys, target) => self.migrate(rt, seat, node, keys, target),
            setting => self.set(rt, seat, node, setting),
        }
    }

    /// SeatGrows: MIGRATE of the keys at the source to the target, all of them or none. To no node or to the source
    /// itself it is refused under the source's lock alone. Where memory runs out nothing happened.
    pub fn migrate<R: Wait>(
        &self,
        rt: &R,
        seat: &mut AdminSeat<B>,
        source: NodeId,
        keys: KeyList,
        target: NodeId,
    ) -> Result<AdminReply, Memory>
        requires there { source < length B.setup.opening.nodes }
        requires movable { AreMovable keys }
        ensures call { IfOk result
            (λ r. seat.new ≡ seat.old ++ record { node = source; command = Migrate keys target; reply = r } ∷ []) }
        ensures err { OnErr result (seat.new ≡ seat.old) }
    {
        if target.get() >= self.count {
            return self.refuse(rt, seat, source, keys, target, AdminFault::UnknownNode);
        }
        if target.get() == source.get() {
            return self.refuse(rt, seat, source, keys, target, AdminFault::SameNode);
        }
        self.move_apart(rt, seat, source, keys, target)
    }

    fn refuse_at<const N: u8, R: Wait>(
        &self,
        rt: &R,
        place: &Option<Mutex<LockedNode<B, N>>>,
        seat: &mut AdminSeat<B>,
        source: NodeId,
        keys: KeyList,
        target: NodeId,
        fault: AdminFault,
    ) -> Result<AdminReply, Memory>
        requires place { is_some place.now ≡ true }
        requires node { source ≡ N }
        requires fault { ((nat_lt target (length B.setup.opening.nodes) ≡ false) × (fault ≡ UnknownNode))
            ⊎ ((nat_lt target (length B.setup.opening.nodes) ≡ true) × (target ≡ source) × (fault ≡ SameNode)) }
        ensures call { IfOk result
            (λ r. seat.new ≡ seat.old ++ record { node = N; command = Migrate keys target; reply = r } ∷ []) }
        ensures err { OnErr result (seat.new ≡ seat.old) }
    {
        let Some(lock) = place else { unreachable!() };
        let mut guard = spin_then_lock(rt, lock);
        refuse_on(
            rt,
            &self.table,
            &self.trail,
            &mut *guard,
            seat,
            source,
            keys,
            target,
            fault,
        )
    }

    // The source's lock alone is taken, and then the trail's.
    fn refuse<R: Wait>(
        &self,
        rt: &R,
        seat: &mut AdminSeat<B>,
        source: NodeId,
        keys: KeyList,
        target: NodeId,
        fault: AdminFault,
    ) -> Result<AdminReply, Memory>
        requires there { source < length B.setup.opening.nodes }
        requires fault { ((nat_lt target (length B.setup.opening.nodes) ≡ false) × (fault ≡ UnknownNode))
            ⊎ ((nat_lt target (length B.setup.opening.nodes) ≡ true) × (target ≡ source) × (fault ≡ SameNode)) }
        ensures call { IfOk result
            (λ r. seat.new ≡ seat.old ++ record { node = source; command = Migrate keys target; reply = r } ∷ []) }
        ensures err { OnErr result (seat.new ≡ seat.old) }
    {
        at_lock!(
            self.locks,
            source,
            |place| self.refuse_at(rt, place, seat, source, keys, target, fault)
        )
    }

    // Both nodes' locks are taken, the lower number's first, and then the trail's.
    fn move_between<const N: u8, const M: u8, R: Wait>(
        &self,
        rt: &R,
        from: &Option<Mutex<LockedNode<B, N>>>,
        to: &Option<Mutex<LockedNode<B, M>>>,
        seat: &mut AdminSeat<B>,
        source: NodeId,
        keys: KeyList,
        target: NodeId,
    ) -> Result<AdminReply, Memory>
        requires apart { N ≢ M }
        requires places { (is_some from.now ≡ true) × (is_some to.now ≡ true) }
        requires nodes { (source ≡ N) × (target ≡ M) }
        requires movable { AreMovable keys }
        ensures call { IfOk result
            (λ r. seat.new ≡ seat.old ++ record { node = N; command = Migrate keys M; reply = r } ∷ []) }
        ensures err { OnErr result (seat.new ≡ seat.old) }
    {
        let (Some(from), Some(to)) = (from, to) else {
            unreachable!()
        };
        if N < M {
            let mut one = spin_then_lock(rt, from);
            let mut two = spin_then_lock(rt, to);
            move_on(
                rt,
                &self.table,
                &self.trail,
                &mut *one,
                &mut *two,
                seat,
                source,
                keys,
                target,
            )
        } else {
            let mut two = spin_then_lock(rt, to);
            let mut one = spin_then_lock(rt, from);
            move_on(
                rt,
                &self.table,
                &self.trail,
                &mut *one,
                &mut *two,
                seat,
                source,
                keys,
                target,
            )
        }
    }

    fn move_from<const N: u8, R: Wait>(
        &self,
        rt: &R,
        from: &Option<Mutex<LockedNode<B, N>>>,
        seat: &mut AdminSeat<B>,
        source: NodeId,
        keys: KeyList,
        target: NodeId,
    ) -> Result<AdminReply, Memory>
        requires apart { N ≢ target }
        requires places { (is_some from.now ≡ true) × (target < length B.setup.opening.nodes) }
        requires node { source ≡ N }
        requires movable { AreMovable keys }
        ensures call { IfOk result
            (λ r. seat.new ≡ seat.old ++ record { node = N; command = Migrate keys target; reply = r } ∷ []) }
        ensures err { OnErr result (seat.new ≡ seat.old) }
    {
        at_lock!(
            self.locks,
            target,
            |place| self.move_between(rt, from, place, seat, source, keys, target)
        )
    }

    fn move_apart<R: Wait>(
        &self,
        rt: &R,
        seat: &mut AdminSeat<B>,
        source: NodeId,
        keys: KeyList,
        target: NodeId,
    ) -> Result<AdminReply, Memory>
        requires apart { source ≢ target }
        requires places { (source < length B.setup.opening.nodes) × (target < length B.setup.opening.nodes) }
        requires movable { AreMovable keys }
        ensures call { IfOk result
            (λ r. seat.new ≡ seat.old ++ record { node = source; command = Migrate keys target; reply = r } ∷ []) }
        ensures err { OnErr result (seat.new ≡ seat.old) }
    {
        at_lock!(
            self.locks,
            source,
            |place| self.move_from(rt, place, seat, source, keys, target)
        )
    }
}

impl<B: ClusterBrand> LiveCluster<B> {
    fn survey_at<const N: u8, R: Wait>(
        &self,
        rt: &R,
        place: &Option<Mutex<LockedNode<B, N>>>,
        seat: &mut AdminSeat<B>,
        node: NodeId,
        tables: &mut Vec<SlotTable>,
    ) -> Result<(), Memory>
        requires place { is_some place.now ≡ true }
        requires node { node ≡ N }
        ensures seat { seat.new ≡ seat.old }
        ensures ok { OnOk result
            (AddsTable (length B.setup.opening.nodes) node (row_by_calls B.setup.opening seat.old node) tables.old.items
            tables.new.items) }
    {
        let Some(lock) = place else { unreachable!() };
        let mut guard = spin_then_lock(rt, lock);
        survey_on(
            rt,
            &self.table,
            &self.trail,
            &mut *guard,
            seat,
            node,
            tables,
        )
    }

    fn survey_node<R: Wait>(
        &self,
        rt: &R,
        seat: &mut AdminSeat<B>,
        node: NodeId,
        tables: &mut Vec<SlotTable>,
    ) -> Result<(), Memory>
        requires { node < length B.setup.opening.nodes }
        ensures seat { seat.new ≡ seat.old }
        ensures ok { OnOk result
            (AddsTable (length B.setup.opening.nodes) node (row_by_calls B.setup.opening seat.old node) tables.old.items
            tables.new.items) }
    {
        at_lock!(
            self.locks,
            node,
            |place| self.survey_at(rt, place, seat, node, tables)
        )
    }

    /// What each node says of the slots' owners, and its marks. It is no call: the administrator's seat is lent, so
    /// that no command comes between, and what each node says is what its calls tell.
    pub fn survey<R: Wait>(&self, rt: &R, seat: &mut AdminSeat<B>) -> Result<Survey, Memory>
        ensures told { IfOk result (λ v. v ≡ survey_after (survey_of B.setup.opening) seat.old) }
        ensures count { IfOk result (λ v. length v.rows ≡ length B.setup.opening.nodes) }
        ensures seat { seat.new ≡ seat.old }
    {
        let count = self.nodes();
        let mut tables = Vec::with_capacity(*self.row.allocator(), usize::from(count))?;
        for number in 0..count {
            self.survey_node(rt, seat, NodeId::of(number), &mut tables)?;
        }
        Ok(Survey::of(tables))
    }

    fn matches_at<const N: u8, R: Wait>(
        &self,
        rt: &R,
        place: &Option<Mutex<LockedNode<B, N>>>,
        seat: &mut AdminSeat<B>,
        node: NodeId,
        survey: &Survey,
    ) -> bool
        requires place { is_some place.now ≡ true }
        requires node { node ≡ N }
        requires rows { length survey.now.rows ≡ length B.setup.opening.nodes }
        ensures seat { seat.new ≡ seat.old }
        ensures same { IsTrue result ↔ (row_at survey.now node ≡ row_by_calls B.setup.opening seat.old node) }
    {
        let Some(lock) = place else { unreachable!() };
        let mut guard = spin_then_lock(rt, lock);
        matches_on(rt, &self.table, &self.trail, &mut *guard, seat, survey)
    }

    fn matches_node<R: Wait>(
        &self,
        rt: &R,
        seat: &mut AdminSeat<B>,
        node: NodeId,
        survey: &Survey,
    ) -> bool
        requires there { node < length B.setup.opening.nodes }
        requires rows { length survey.now.rows ≡ length B.setup.opening.nodes }
        ensures seat { seat.new ≡ seat.old }
        ensures same { IsTrue result ↔ (row_at survey.now node ≡ row_by_calls B.setup.opening seat.old node) }
    {
        at_lock!(
            self.locks,
            node,
            |place| self.matches_at(rt, place, seat, node, survey)
        )
    }

    /// Whether the nodes say and have just what the survey tells, which is what the administrator's calls tell, whose
    /// seat is lent, so that no command comes between. It is no call. Takes no memory.
    pub fn matches<R: Wait>(&self, rt: &R, seat: &mut AdminSeat<B>, survey: &Survey) -> bool
        ensures same { IsTrue result ↔ (survey_after (survey_of B.setup.opening) seat.old ≡ survey.now) }
        ensures count { IsTrue result → length B.setup.opening.nodes ≡ length survey.now.rows }
        ensures seat { seat.new ≡ seat.old }
    {
        let count = self.nodes();
        if count != survey.nodes() {
            return false;
        }
        for number in 0..count {
            if !self.matches_node(rt, seat, NodeId::of(number), survey) {
                return false;
            }
        }
        true
    }
}

impl<B: ClusterBrand, S, A> Cluster<B, SeatTable<B>, LockedTrail<B>, S, A> {
    /// What the reader tells of the node of the place.
    fn read_at<const N: u8, R: Wait, V: NodeReader>(
        &self,
        rt: &R,
        place: &Option<Mutex<LockedNode<B, N>>>,
        node: NodeId,
        reader: &V,
    ) -> Result<Reply, PortFault>
        requires place { is_some place.now ≡ true }
        requires node { node ≡ N }
        ensures { IsToldOf (V.tells reader.now) B.setup.opening node result }
    {
        let Some(lock) = place else { unreachable!() };
        let mut guard = spin_then_lock(rt, lock);
        read_on(rt, &self.table, &self.trail, &mut *guard, reader)
    }

    /// What the reader tells of the node as the events until then have made it. The node is locked meanwhile, and stays
    /// as it is. It is no call: an event is of a seat, and none can be had here, where the free seats are of any types.
    pub fn read<R: Wait, V: NodeReader>(
        &self,
        rt: &R,
        node: NodeId,
        reader: &V,
    ) -> Result<Reply, PortFault>
        requires { node < length B.setup.opening.nodes }
        ensures { IsToldOf (V.tells reader.now) B.setup.opening node result }
    {
        at_lock!(
            self.locks,
            node,
            |place| self.read_at(rt, place, node, reader)
        )
    }
}

/// Whether the node of the place, if there is one, has this table and no mark.
fn is_clean_at<B: ClusterBrand, const N: u8, R: Wait>(
    rt: &R,
    place: &Option<Mutex<LockedNode<B, N>>>,
    owners: &OwnerTable,
) -> bool {
    match place {
        Some(lock) => lock.lock(rt).node().is_clean(owners),
        None => true,
    }
}

impl<B: ClusterBrand> LiveCluster<B> {
    fn is_clean_node<R: Wait>(&self, rt: &R, node: NodeId, owners: &OwnerTable) -> bool {
        at_lock!(self.locks, node, |place| is_clean_at(rt, place, owners))
    }

    /// Whether every node had this table and no mark when it was looked at, one after the other.
    pub fn is_clean<R: Wait>(&self, rt: &R, owners: &OwnerTable) -> bool
        ensures { IsTrue result → length B.setup.opening.nodes ≡ owners.now.nodes }
    {
        let count = self.nodes();
        if count != owners.nodes() {
            return false;
        }
        for number in 0..count {
            if !self.is_clean_node(rt, NodeId::of(number), owners) {
                return false;
            }
        }
        true
    }
}
