// Names of users and groups.
use ug_casefile::Answer;
use ug_conf::Principal;

// Whether it is what its own name gives, and not what the name gives of the other kind.
fn is_itself(principal: Principal) -> bool {
    let same = Principal::named(principal.is_group(), principal.name());
    let other = Principal::named(!principal.is_group(), principal.name());
    same == Some(principal) && other != Some(principal)
}

/// `user NAME`, `group NAME`, or `none`.
pub fn tell(told: &mut Answer, line: &[u8]) {
    let Some(principal) = Principal::parse(line) else {
        told.add(b"none");
        return;
    };
    if !is_itself(principal) {
        told.add(b"not itself");
        return;
    }
    let word: &[u8] = if principal.is_group() {
        b"group "
    } else {
        b"user "
    };
    told.add(word);
    told.add(principal.name());
}
