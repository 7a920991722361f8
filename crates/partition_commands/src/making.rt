//! A partition's brokers over fresh disks.
//!
//! The disks' planned calls fail from the moment on at which all brokers are made, and nothing that can fail comes
//! after that. So a refusal gives the disks back without a plan in force: each as it came, or with the empty log of
//! its broker.

ghost use Rattle.std.specs.Prelude.{◌≡◌, ◌≤◌, ◌+◌, ◌++◌, map, true, false, [], List, length};
ghost use Rattle.std.specs.Prelude.{vec_capacity, IfOk, OnOk, IfErr, OnErr, IsErrOf, IsTrue};
ghost use Rattle.local_log.specs.Log.{AreSettings};
ghost use Rattle.tier_base.specs.declared.plain.Settings.{Settings as Options};
ghost use Rattle.broker_log.specs.Seen.{LogSeen, ShowsSeen, OnDisk, Lasting, NoFault, OneFault, layout_in};
ghost use Rattle.partition_commands.specs.declared.refusal.WorldRefusal.TheVariants as refusal;
ghost use Rattle.partition_commands.specs.Partition.{line_of};
ghost use Rattle.partition_commands.specs.Disks.{AllReopen};
ghost use Rattle.partition_commands.specs.Cold.{ShowDisks, DisksReopen, AreColdOver};
ghost use Rattle.partition_commands.specs.Cold.{IsColdPartition, cold_node, partition_back};
ghost use Rattle.partition_commands.specs.Partition.{ShowsPartition};
ghost use Rattle.partition_commands.specs.Fresh.{IsFreshDisk, AreFreshDisks, DisksTell, LeavesEntering, IsFreshNode};
ghost use Rattle.partition_commands.specs.Fresh.{IsMadeOver, AreMadeFrom, AreFreshFrom, IsFreshPartition, AllSeen};
ghost use Rattle.partition_commands.specs.Fresh.{IsNodeLaid, AreNodesLaid, AddsNode, AreDisksOf, RefusesOver};
ghost use Rattle.partition_commands.specs.Fresh.{RefusesDisks, empty_seen, is_first};

use crate::partition_state::{Node, PartitionState};
use crate::refusal::WorldRefusal;
use broker_log::BrokerLog;
use disk_model::Disk;
use local_log::CreateRefusal;
use plain_log::{Registry, Role};
use std::alloc::{AllocError, Global};
use tier_base::{Items, Settings, Trouble};

/// A broker that is up and has joined epoch 0, with an empty log.
fn follower<D: Disk>(
    alloc: Global,
    disk: D,
    settings: Settings,
) -> Result<Node<D>, (D, WorldRefusal)>
    requires settings { AreSettings settings }
    requires disk { IsFreshDisk D.content D.control disk }
    ensures node { IfOk result (IsMadeOver D.control D.content false disk) }
    ensures laid { IfOk result (IsNodeLaid settings) }
    ensures seen { IfOk result (λ node. IsTrue (D.content disk).is_observable
        → ShowsSeen D.content node.log (empty_seen (line_of node))) }
    ensures err { IfErr result (λ e. RefusesOver D.control D.content false disk e.0 e.1) }
{
    match BrokerLog::create(alloc, disk, settings) {
        Ok(log) => {
            log.reopens();
            Ok(Node {
                stops: 0,
                role: Role::Joined(0),
                log,
                known_high_watermark: 0,
            })
        }
        Err((disk, CreateRefusal::DiskFault)) => Err((disk, WorldRefusal::DiskFault)),
        Err((disk, CreateRefusal::NoMemory)) => Err((disk, WorldRefusal::NoMemory)),
    }
}

/// A broker over a fresh disk.
fn broker<D: Disk>(
    alloc: Global,
    disk: D,
    settings: Settings,
    leads: bool,
) -> Result<Node<D>, (D, WorldRefusal)>
    requires settings { AreSettings settings }
    requires disk { IsFreshDisk D.content D.control disk }
    ensures node { IfOk result (IsMadeOver D.control D.content leads disk) }
    ensures laid { IfOk result (IsNodeLaid settings) }
    ensures seen { IfOk result (λ node. IsTrue (D.content disk).is_observable
        → ShowsSeen D.content node.log (empty_seen (line_of node))) }
    ensures err { IfErr result (λ e. RefusesOver D.control D.content leads disk e.0 e.1) }
{
    let mut node = match follower(alloc, disk, settings) {
        Ok(node) => node,
        Err(refused) => return Err(refused),
    };
    if !leads {
        return Ok(node);
    }
    match node.begin() {
        Ok(()) => Ok(node),
        Err(why) => Err((node.log.close(), why)),
    }
}

/// Puts a broker over a fresh disk after the others. The first leads.
fn add<D: Disk>(
    alloc: Global,
    nodes: &mut Vec<Node<D>>,
    disk: D,
    settings: Settings,
) -> Result<(), (D, WorldRefusal)>
    requires settings { AreSettings settings }
    requires disk { IsFreshDisk D.content D.control disk }
    ensures ok { OnOk result (AddsNode D.control D.content nodes.old.items disk nodes.new.items) }
    ensures laid { OnOk result (AreNodesLaid settings nodes.old.items → AreNodesLaid settings nodes.new.items) }
    ensures same { OnErr result (nodes.new.items ≡ nodes.old.items) }
    ensures err { IfErr result (λ e. RefusesOver D.control D.content (is_first nodes.old.items) disk e.0 e.1) }
{
    let leads = nodes.is_empty();
    let node = match broker(alloc, disk, settings, leads) {
        Ok(node) => node,
        Err(refused) => return Err(refused),
    };
    match nodes.push(node) {
        Ok(()) => Ok(()),
        Err(left) => Err((left.value.log.close(), WorldRefusal::NoMemory)),
    }
}

/// Takes the brokers' disks back, into the room that they came from.
fn give_back<D: Disk>(nodes: Vec<Node<D>>, disks: &mut Vec<D>)
    requires none { disks.old.items ≡ [] }
    requires room { length nodes.items ≤ vec_capacity disks.old }
    ensures disks { AreDisksOf nodes.items disks.new.items }
    ensures room { vec_capacity disks.new ≡ vec_capacity disks.old }
{
    for node in nodes {
        disks.push_reserved(node.log.close());
    }
}

/// Makes brokers of disks, in their order, and none is left. The first leads. A refusal leaves the disks there.
fn brokers<D: Disk>(
    alloc: Global,
    disks: &mut Vec<D>,
    settings: Settings,
) -> Result<Vec<Node<D>>, WorldRefusal>
    requires settings { AreSettings settings }
    requires disks { AreFreshDisks D.content D.control disks.old.items }
    ensures nodes { IfOk result (λ nodes. AreMadeFrom D.control D.content true disks.old.items nodes.items) }
    ensures seen { IfOk result (λ nodes. DisksTell D.content disks.old.items → AllSeen D.content nodes.items) }
    ensures laid { IfOk result (λ nodes. AreNodesLaid settings nodes.items) }
    ensures none { OnOk result (disks.new.items ≡ []) }
    ensures err { IfErr result (λ why. RefusesDisks D.control D.content disks.old.items disks.new.items why) }
    ensures room { vec_capacity disks.new ≡ vec_capacity disks.old }
{
    let Some(disk) = disks.pop() else {
        return Ok(Vec::new(alloc));
    };
    let mut nodes = match brokers(alloc, disks, settings) {
        Ok(nodes) => nodes,
        Err(why) => {
            disks.push_reserved(disk);
            return Err(why);
        }
    };
    match add(alloc, &mut nodes, disk, settings) {
        Ok(()) => Ok(nodes),
        Err((disk, why)) => {
            give_back(nodes, disks);
            disks.push_reserved(disk);
            Err(why)
        }
    }
}

/// Puts brokers that are down over these disks, in their order, after the others, and none is left. No disk is asked
/// anything.
fn set_down<D: Disk>(
    alloc: Global,
    disks: &mut Vec<D>,
    settings: Settings,
    nodes: &mut Vec<Node<D>>,
)
    requires settings { AreSettings settings }
    requires room { length nodes.old.items + length disks.old.items ≤ vec_capacity nodes.old }
    ensures nodes { nodes.new.items ≡ nodes.old.items ++ map (cold_node settings) disks.old.items }
    ensures none { disks.new.items ≡ [] }
    ensures room { vec_capacity disks.new ≡ vec_capacity disks.old }
    ensures nodes_room { vec_capacity nodes.new ≡ vec_capacity nodes.old }
{
    let Some(disk) = disks.pop() else {
        return;
    };
    set_down(alloc, disks, settings, nodes);
    nodes.push_reserved(Node {
        stops: 0,
        role: Role::Idle,
        log: BrokerLog::from_disk(alloc, disk, settings),
        known_high_watermark: 0,
    });
}

/// Puts the plans of the brokers' disks in force.
fn arm<D: Disk>(nodes: &mut Items<Node<D>>)
    ensures nodes { (disks : List D) → AreFreshDisks D.content D.control disks
        → AreMadeFrom D.control D.content true disks nodes.old
        → AreFreshFrom D.control true disks nodes.new }
    ensures cold { (settings : Options) (disks : List D) → nodes.old ≡ map (cold_node settings) disks
        → AreColdOver D.content D.control settings disks nodes.new }
    ensures seen { AllSeen D.content nodes.old → AllSeen D.content nodes.new }
    ensures laid { (settings : Options) → AreNodesLaid settings nodes.old → AreNodesLaid settings nodes.new }
{
    for i in 0..nodes.len() {
        nodes.at_mut(i).log.arm();
    }
}

impl<D: Disk> Node<D> {
    /// Lets it lead epoch 0.
    fn begin(&mut self) -> Result<(), WorldRefusal>
        requires { IsFreshNode false self.old }
        ensures node { OnOk result (IsFreshNode true self.new) }
        ensures laid { OnOk result (layout_in self.new.log ≡ layout_in self.old.log) }
        ensures control { Lasting D.control self.old.log self.new.log }
        ensures seen { OnOk result (ShowsSeen D.content self.old.log (empty_seen (line_of self.old))
            → ShowsSeen D.content self.new.log (empty_seen (line_of self.new))) }
        ensures once { IsErrOf result refusal.DiskFault → OneFault D.control self.old.log self.new.log }
        ensures no_fault { (IsErrOf result refusal.DiskFault → ⊥) → NoFault D.control self.old.log self.new.log }
        ensures leaves { ShowsSeen D.content self.old.log (empty_seen (line_of self.old))
            → OnDisk self.old.log (λ d. OnDisk self.new.log (LeavesEntering D.content d)) }
    {
        self.log.reopens();
        match self.log.lead(0) {
            Ok(_) => {
                self.log.reopens();
                self.role = Role::Leads(0);
                Ok(())
            }
            Err(Trouble::Failed) => Err(WorldRefusal::DiskFault),
            Err(Trouble::NoMemory) => {
                self.log.reopens();
                Err(WorldRefusal::NoMemory)
            }
        }
    }
}

impl<D: Disk> PartitionState<D> {
    /// Makes a partition whose brokers have these disks, and none is left there. The first leads epoch 0, the others
    /// have joined it, and all are in sync. From then on the disks' planned calls fail.
    pub fn fresh(
        alloc: Global,
        disks: &mut Vec<D>,
        settings: Settings,
    ) -> Result<PartitionState<D>, WorldRefusal>
        requires some { 1 ≤ length disks.old.items }
        requires few { length disks.old.items ≤ 8 }
        requires settings { AreSettings settings }
        requires disks { AreFreshDisks D.content D.control disks.old.items }
        ensures partition_state { IfOk result (IsFreshPartition D.control disks.old.items) }
        ensures laid { IfOk result (λ partition_state. AreNodesLaid settings partition_state.nodes) }
        ensures seen { IfOk result (λ partition_state. DisksTell D.content disks.old.items
            → AllSeen D.content partition_state.nodes) }
        ensures none { OnOk result (disks.new.items ≡ []) }
        ensures err { IfErr result (λ why. RefusesDisks D.control D.content disks.old.items disks.new.items why) }
        ensures room { vec_capacity disks.new ≡ vec_capacity disks.old }
    {
        let count = disks.len() as u16;
        let Ok(registry) = Registry::fresh(alloc, count) else {
            return Err(WorldRefusal::NoMemory);
        };
        let nodes = brokers(alloc, disks, settings)?;
        let mut nodes = Items::from_vec(nodes);
        arm(&mut nodes);
        Ok(PartitionState {
            registry,
            nodes,
            clock: 0,
            copying: true,
            packed: false,
        })
    }

    /// Makes a partition with this registry whose brokers are down over these disks, and none is left there. The disks
    /// aren't opened: what is seen of a log is what its disk reports. From then on the disks' planned calls fail. Where
    /// memory runs out the disks are as they were, and their plans aren't in force.
    pub fn reopen(
        alloc: Global,
        disks: &mut Vec<D>,
        settings: Settings,
        registry: Registry,
    ) -> Result<PartitionState<D>, AllocError>
        requires settings { AreSettings settings }
        ensures partition_state { IfOk result (IsColdPartition D.content D.control settings registry disks.old.items) }
        ensures seen { IfOk result (λ partition_state. (ss : List LogSeen) → ShowDisks D.content disks.old.items ss
            → ShowsPartition D.content partition_state (partition_back registry ss)) }
        ensures none { OnOk result (disks.new.items ≡ []) }
        ensures same { OnErr result (disks.new.items ≡ disks.old.items) }
        ensures room { vec_capacity disks.new ≡ vec_capacity disks.old }
    {
        let mut nodes = Vec::with_capacity(alloc, disks.len())?;
        set_down(alloc, disks, settings, &mut nodes);
        let mut nodes = Items::from_vec(nodes);
        arm(&mut nodes);
        Ok(PartitionState {
            registry,
            nodes,
            clock: 0,
            copying: true,
            packed: false,
        })
    }

    /// The log of each broker that is up can be opened again from its disk, also after a power cut. It does nothing
    /// that is seen.
    pub fn reopens(&self)
        ensures { AllReopen D.content self.now.nodes }
    {
        for node in self.nodes.as_slice() {
            node.log.reopens();
        }
    }

    /// Gives the brokers' disks back, in their order, in the room that they came from. From those of brokers that are
    /// up, or whose logs are seen, a log can be opened again, also after a power cut.
    pub fn close(self, room: Vec<D>) -> Vec<D>
        requires none { room.items ≡ [] }
        requires room { length self.nodes ≤ vec_capacity room }
        ensures disks { AreDisksOf self.nodes result.items }
        ensures again { DisksReopen D.content self.nodes result.items }
    {
        self.reopens();
        let mut disks = room;
        give_back(self.nodes.into_vec(), &mut disks);
        disks
    }
}
