ghost use Rattle.std.specs.Prelude.{◌≡◌, ◌↔◌, true};
ghost use Rattle.kd_tree.specs.Criteria.{IsBalanced};
ghost use Rattle.kd_mark.specs.Update.{IsBalancedBelow};

use kd_tree::Tree;

// Whether each node of at least 10 and fewer than `large` nodes meets the balance criterion. Smaller subtrees aren't
// looked into.
pub(crate) fn is_balanced(tree: &Tree, large: u32) -> bool
    ensures { result ≡ true ↔ IsBalancedBelow large tree.now }
{
    let size = tree.size();
    if size < 10 {
        return true;
    }
    let Some(top) = tree.top() else {
        return true;
    };
    if size < large && !are_balanced(top.left, top.right) {
        return false;
    }
    is_balanced(top.left, large) && is_balanced(top.right, large)
}

// Whether each child has fewer than three fifths of the nodes below.
fn are_balanced(left: &Tree, right: &Tree) -> bool
    ensures { result ≡ true ↔ IsBalanced left.now right.now }
{
    let (left, right) = (left.size(), right.size());
    let most = 3 * (left + right);
    5 * left < most && 5 * right < most
}
