// Laws of sound memory, each the contract of a function that does nothing else.
ghost use Rattle.slots.specs.Theorems.{Economy, Shallow, Unique};

pub fn economy<R, V>()
    ensures { Economy R V }
{}

pub fn shallow<R, V>()
    ensures { Shallow R V }
{}

pub fn unique<R, V>()
    ensures { Unique R V }
{}
