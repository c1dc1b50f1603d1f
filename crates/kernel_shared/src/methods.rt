//! A method for each call, with the promise of `SharedKernel::call` on the call of its name.

ghost use Rattle.std.specs.Prelude.{◌≡◌, IsTrue, IfOk, OnErr};
ghost use Rattle.kernel_model.specs.Histories.{fits};
ghost use Rattle.kernel_shared.specs.Calls.{IsIdleOf, IsSamePass, HasMade, KnowsOwn};

use crate::gate::Gate;
use crate::shared::{Pass, SharedKernel};
use kern_ids::calls::{Call, Limit};
use kern_ids::entries::NoMemory;
use kern_ids::ids::{Band, ObjId, TaskId};
use kern_ids::lines::ByteLine;
use kern_ids::replies::Reply;
use std::sync::Wait;

impl SharedKernel {
    /// Maps an object.
    pub fn map<R: Wait, G: Gate>(
        &self,
        rt: &R,
        gate: &G,
        pass: &mut Pass,
        obj: ObjId,
    ) -> Result<Reply, NoMemory>
        requires idle { IsIdleOf self.now pass.old }
        requires fits { IsTrue (fits self.now.base pass.old.number (Call.Map obj)) }
        ensures kept { IsSamePass self.now pass.old pass.new }
        ensures made { IfOk result (HasMade self.now pass.old pass.new (Call.Map obj)) }
        ensures none { OnErr result (pass.new.mine ≡ pass.old.mine) }
        ensures own { KnowsOwn pass.new }
    {
        self.call(rt, gate, pass, Call::Map { obj })
    }

    /// Unmaps an object.
    pub fn unmap<R: Wait, G: Gate>(
        &self,
        rt: &R,
        gate: &G,
        pass: &mut Pass,
        obj: ObjId,
    ) -> Result<Reply, NoMemory>
        requires idle { IsIdleOf self.now pass.old }
        requires fits { IsTrue (fits self.now.base pass.old.number (Call.Unmap obj)) }
        ensures kept { IsSamePass self.now pass.old pass.new }
        ensures made { IfOk result (HasMade self.now pass.old pass.new (Call.Unmap obj)) }
        ensures none { OnErr result (pass.new.mine ≡ pass.old.mine) }
        ensures own { KnowsOwn pass.new }
    {
        self.call(rt, gate, pass, Call::Unmap { obj })
    }

    /// Writes bytes into an object, from a place on.
    pub fn write<R: Wait, G: Gate>(
        &self,
        rt: &R,
        gate: &G,
        pass: &mut Pass,
        obj: ObjId,
        off: u32,
        bytes: ByteLine,
    ) -> Result<Reply, NoMemory>
        requires idle { IsIdleOf self.now pass.old }
        requires fits { IsTrue (fits self.now.base pass.old.number (Call.Write obj off bytes)) }
        ensures kept { IsSamePass self.now pass.old pass.new }
        ensures made { IfOk result (HasMade self.now pass.old pass.new (Call.Write obj off bytes)) }
        ensures none { OnErr result (pass.new.mine ≡ pass.old.mine) }
        ensures own { KnowsOwn pass.new }
    {
        self.call(rt, gate, pass, Call::Write { obj, off, bytes })
    }

    /// Reads bytes of an object, from a place on.
    pub fn read<R: Wait, G: Gate>(
        &self,
        rt: &R,
        gate: &G,
        pass: &mut Pass,
        obj: ObjId,
        off: u32,
        len: u32,
    ) -> Result<Reply, NoMemory>
        requires idle { IsIdleOf self.now pass.old }
        requires fits { IsTrue (fits self.now.base pass.old.number (Call.Read obj off len)) }
        ensures kept { IsSamePass self.now pass.old pass.new }
        ensures made { IfOk result (HasMade self.now pass.old pass.new (Call.Read obj off len)) }
        ensures none { OnErr result (pass.new.mine ≡ pass.old.mine) }
        ensures own { KnowsOwn pass.new }
    {
        self.call(rt, gate, pass, Call::Read { obj, off, len })
    }

    /// Sets the state of an object by a word.
    pub fn set_state<R: Wait, G: Gate>(
        &self,
        rt: &R,
        gate: &G,
        pass: &mut Pass,
        obj: ObjId,
        word: u32,
    ) -> Result<Reply, NoMemory>
        requires idle { IsIdleOf self.now pass.old }
        requires fits { IsTrue (fits self.now.base pass.old.number (Call.SetState obj word)) }
        ensures kept { IsSamePass self.now pass.old pass.new }
        ensures made { IfOk result (HasMade self.now pass.old pass.new (Call.SetState obj word)) }
        ensures none { OnErr result (pass.new.mine ≡ pass.old.mine) }
        ensures own { KnowsOwn pass.new }
    {
        self.call(rt, gate, pass, Call::SetState { obj, word })
    }

    /// Asks for the state of an object.
    pub fn get_state<R: Wait, G: Gate>(
        &self,
        rt: &R,
        gate: &G,
        pass: &mut Pass,
        obj: ObjId,
    ) -> Result<Reply, NoMemory>
        requires idle { IsIdleOf self.now pass.old }
        requires fits { IsTrue (fits self.now.base pass.old.number (Call.GetState obj)) }
        ensures kept { IsSamePass self.now pass.old pass.new }
        ensures made { IfOk result (HasMade self.now pass.old pass.new (Call.GetState obj)) }
        ensures none { OnErr result (pass.new.mine ≡ pass.old.mine) }
        ensures own { KnowsOwn pass.new }
    {
        self.call(rt, gate, pass, Call::GetState { obj })
    }

    /// Makes the caller's task active or inactive.
    pub fn active<R: Wait, G: Gate>(
        &self,
        rt: &R,
        gate: &G,
        pass: &mut Pass,
        on: bool,
    ) -> Result<Reply, NoMemory>
        requires idle { IsIdleOf self.now pass.old }
        requires fits { IsTrue (fits self.now.base pass.old.number (Call.Active on)) }
        ensures kept { IsSamePass self.now pass.old pass.new }
        ensures made { IfOk result (HasMade self.now pass.old pass.new (Call.Active on)) }
        ensures none { OnErr result (pass.new.mine ≡ pass.old.mine) }
        ensures own { KnowsOwn pass.new }
    {
        self.call(rt, gate, pass, Call::Active { on })
    }

    /// Asks for the pages of the caller's task.
    pub fn ledger<R: Wait, G: Gate>(
        &self,
        rt: &R,
        gate: &G,
        pass: &mut Pass,
    ) -> Result<Reply, NoMemory>
        requires idle { IsIdleOf self.now pass.old }
        requires fits { IsTrue (fits self.now.base pass.old.number Call.Ledger) }
        ensures kept { IsSamePass self.now pass.old pass.new }
        ensures made { IfOk result (HasMade self.now pass.old pass.new Call.Ledger) }
        ensures none { OnErr result (pass.new.mine ≡ pass.old.mine) }
        ensures own { KnowsOwn pass.new }
    {
        self.call(rt, gate, pass, Call::Ledger)
    }

    /// Ends the caller's task.
    pub fn exit<R: Wait, G: Gate>(
        &self,
        rt: &R,
        gate: &G,
        pass: &mut Pass,
    ) -> Result<Reply, NoMemory>
        requires idle { IsIdleOf self.now pass.old }
        requires fits { IsTrue (fits self.now.base pass.old.number Call.Exit) }
        ensures kept { IsSamePass self.now pass.old pass.new }
        ensures made { IfOk result (HasMade self.now pass.old pass.new Call.Exit) }
        ensures none { OnErr result (pass.new.mine ≡ pass.old.mine) }
        ensures own { KnowsOwn pass.new }
    {
        self.call(rt, gate, pass, Call::Exit)
    }

    /// Purges the object of a ripe token.
    pub fn purge_one<R: Wait, G: Gate>(
        &self,
        rt: &R,
        gate: &G,
        pass: &mut Pass,
    ) -> Result<Reply, NoMemory>
        requires idle { IsIdleOf self.now pass.old }
        requires fits { IsTrue (fits self.now.base pass.old.number Call.PurgeOne) }
        ensures kept { IsSamePass self.now pass.old pass.new }
        ensures made { IfOk result (HasMade self.now pass.old pass.new Call.PurgeOne) }
        ensures none { OnErr result (pass.new.mine ≡ pass.old.mine) }
        ensures own { KnowsOwn pass.new }
    {
        self.call(rt, gate, pass, Call::PurgeOne)
    }

    /// Purges an object, ripe or not.
    pub fn forced<R: Wait, G: Gate>(
        &self,
        rt: &R,
        gate: &G,
        pass: &mut Pass,
    ) -> Result<Reply, NoMemory>
        requires idle { IsIdleOf self.now pass.old }
        requires fits { IsTrue (fits self.now.base pass.old.number Call.Forced) }
        ensures kept { IsSamePass self.now pass.old pass.new }
        ensures made { IfOk result (HasMade self.now pass.old pass.new Call.Forced) }
        ensures none { OnErr result (pass.new.mine ≡ pass.old.mine) }
        ensures own { KnowsOwn pass.new }
    {
        self.call(rt, gate, pass, Call::Forced)
    }

    /// Does one step of the pageout scan.
    pub fn scan<R: Wait, G: Gate>(
        &self,
        rt: &R,
        gate: &G,
        pass: &mut Pass,
    ) -> Result<Reply, NoMemory>
        requires idle { IsIdleOf self.now pass.old }
        requires fits { IsTrue (fits self.now.base pass.old.number Call.Scan) }
        ensures kept { IsSamePass self.now pass.old pass.new }
        ensures made { IfOk result (HasMade self.now pass.old pass.new Call.Scan) }
        ensures none { OnErr result (pass.new.mine ≡ pass.old.mine) }
        ensures own { KnowsOwn pass.new }
    {
        self.call(rt, gate, pass, Call::Scan)
    }

    /// Lets a tick go by, and ages idle tasks.
    pub fn tick<R: Wait, G: Gate>(
        &self,
        rt: &R,
        gate: &G,
        pass: &mut Pass,
    ) -> Result<Reply, NoMemory>
        requires idle { IsIdleOf self.now pass.old }
        requires fits { IsTrue (fits self.now.base pass.old.number Call.Tick) }
        ensures kept { IsSamePass self.now pass.old pass.new }
        ensures made { IfOk result (HasMade self.now pass.old pass.new Call.Tick) }
        ensures none { OnErr result (pass.new.mine ≡ pass.old.mine) }
        ensures own { KnowsOwn pass.new }
    {
        self.call(rt, gate, pass, Call::Tick)
    }

    /// Kills a task where one is to be killed.
    pub fn jetsam<R: Wait, G: Gate>(
        &self,
        rt: &R,
        gate: &G,
        pass: &mut Pass,
    ) -> Result<Reply, NoMemory>
        requires idle { IsIdleOf self.now pass.old }
        requires fits { IsTrue (fits self.now.base pass.old.number Call.Jetsam) }
        ensures kept { IsSamePass self.now pass.old pass.new }
        ensures made { IfOk result (HasMade self.now pass.old pass.new Call.Jetsam) }
        ensures none { OnErr result (pass.new.mine ≡ pass.old.mine) }
        ensures own { KnowsOwn pass.new }
    {
        self.call(rt, gate, pass, Call::Jetsam)
    }

    /// Sets the band that a task wishes.
    pub fn set_band<R: Wait, G: Gate>(
        &self,
        rt: &R,
        gate: &G,
        pass: &mut Pass,
        task: TaskId,
        band: Band,
    ) -> Result<Reply, NoMemory>
        requires idle { IsIdleOf self.now pass.old }
        requires fits { IsTrue (fits self.now.base pass.old.number (Call.SetBand task band)) }
        ensures kept { IsSamePass self.now pass.old pass.new }
        ensures made { IfOk result (HasMade self.now pass.old pass.new (Call.SetBand task band)) }
        ensures none { OnErr result (pass.new.mine ≡ pass.old.mine) }
        ensures own { KnowsOwn pass.new }
    {
        self.call(rt, gate, pass, Call::SetBand { task, band })
    }

    /// Sets the limits of a task.
    pub fn set_limits<R: Wait, G: Gate>(
        &self,
        rt: &R,
        gate: &G,
        pass: &mut Pass,
        task: TaskId,
        active: Limit,
        inactive: Limit,
    ) -> Result<Reply, NoMemory>
        requires idle { IsIdleOf self.now pass.old }
        requires fits { IsTrue (fits self.now.base pass.old.number (Call.SetLimits task active inactive)) }
        ensures kept { IsSamePass self.now pass.old pass.new }
        ensures made { IfOk result (HasMade self.now pass.old pass.new (Call.SetLimits task active inactive)) }
        ensures none { OnErr result (pass.new.mine ≡ pass.old.mine) }
        ensures own { KnowsOwn pass.new }
    {
        self.call(
            rt,
            gate,
            pass,
            Call::SetLimits {
                task,
                active,
                inactive,
            },
        )
    }

    /// Asks for the numbers of frames and pages.
    pub fn info<R: Wait, G: Gate>(
        &self,
        rt: &R,
        gate: &G,
        pass: &mut Pass,
    ) -> Result<Reply, NoMemory>
        requires idle { IsIdleOf self.now pass.old }
        requires fits { IsTrue (fits self.now.base pass.old.number Call.Info) }
        ensures kept { IsSamePass self.now pass.old pass.new }
        ensures made { IfOk result (HasMade self.now pass.old pass.new Call.Info) }
        ensures none { OnErr result (pass.new.mine ≡ pass.old.mine) }
        ensures own { KnowsOwn pass.new }
    {
        self.call(rt, gate, pass, Call::Info)
    }

    /// Asks for the tokens of the three queues.
    pub fn purgeables<R: Wait, G: Gate>(
        &self,
        rt: &R,
        gate: &G,
        pass: &mut Pass,
    ) -> Result<Reply, NoMemory>
        requires idle { IsIdleOf self.now pass.old }
        requires fits { IsTrue (fits self.now.base pass.old.number Call.Purgeables) }
        ensures kept { IsSamePass self.now pass.old pass.new }
        ensures made { IfOk result (HasMade self.now pass.old pass.new Call.Purgeables) }
        ensures none { OnErr result (pass.new.mine ≡ pass.old.mine) }
        ensures own { KnowsOwn pass.new }
    {
        self.call(rt, gate, pass, Call::Purgeables)
    }
}
