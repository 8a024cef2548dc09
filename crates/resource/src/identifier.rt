// Identifiers of resources: kind 2 bits, class 14, type 10, version 6. After kind 3, which is private, come definer 10 and identity 20.
ghost use Rattle.std.specs.Prelude.{◌≡◌};
ghost use Rattle.resource.specs.Identifiers.{kind as kind_of, class as class_of, resource_type as resource_type_of, version as version_of, definer as definer_of, identity as identity_of, private, matches as matches_of, older};

/// The kind of any identifier: the top 2 bits.
pub fn kind(i: u32) -> u8
    ensures { result ≡ kind_of i }
{
    (i / 0x4000_0000) as u8
}

/// The class of an identifier that is not private: the 14 bits below the kind.
pub fn class(i: u32) -> u16
    ensures { result ≡ class_of i }
{
    (i / 0x1_0000 % 0x4000) as u16
}

/// The type of an identifier that is not private: the 10 bits below the class.
pub fn resource_type(i: u32) -> u16
    ensures { result ≡ resource_type_of i }
{
    (i / 64 % 1024) as u16
}

/// The version of an identifier that is not private: the low 6 bits.
pub fn version(i: u32) -> u8
    ensures { result ≡ version_of i }
{
    (i % 64) as u8
}

/// The definer of a private identifier: the 10 bits below the kind.
pub fn definer(i: u32) -> u16
    ensures { result ≡ definer_of i }
{
    (i / 0x10_0000 % 1024) as u16
}

/// The identity of a private identifier: the low 20 bits.
pub fn identity(i: u32) -> u32
    ensures { result ≡ identity_of i }
{
    i % 0x10_0000
}

/// Whether the identifier is private, which is kind 3.
pub fn is_private(i: u32) -> bool
    ensures { result ≡ private i }
{
    kind(i) == 3
}

/// Whether two identifiers match: all but the version is equal; of private ones all 32 bits are.
pub fn matches(a: u32, b: u32) -> bool
    ensures { result ≡ matches_of a b }
{
    if is_private(a) {
        a == b
    } else {
        a / 64 == b / 64
    }
}

/// Whether a listed identifier is older than one that is asked for: it is not private, and its version is lower.
pub fn is_older(listed: u32, asked: u32) -> bool
    ensures { result ≡ older listed asked }
{
    !is_private(listed) && version(listed) < version(asked)
}
