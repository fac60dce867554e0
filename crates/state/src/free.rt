// The free slots, in the call's own memory: how many there are, and behind that number their list.
ghost use Rattle.std.specs.Prelude.{◌≡◌};
ghost use Rattle.state.specs.Free.{pushed, FreeRoom, SomeFree, Popped};

// Puts slot i behind those that are listed.
pub fn push(free: &mut [u16], i: usize)
    requires { FreeRoom free.old i }
    ensures { free.new ≡ pushed i free.old }
{
    let n = free[0] as usize;
    free[n + 1] = i as u16;
    free[0] = (n + 1) as u16;
}

// Takes the last slot out of the list.
pub fn pop(free: &mut [u16]) -> usize
    requires { SomeFree free.old }
    ensures { Popped free.old free.new result }
{
    let n = free[0] as usize;
    let i = free[n] as usize;
    free[0] = (n - 1) as u16;
    i
}
