use crate::solver::Solver;
use affine_forms::Form;
use quast::{Answer, Components, Node};

impl Solver {
    // Keeps the room of a form: with those of problems without parameters, or with those of the context.
    fn keep_form(&mut self, form: Form) {
        if form.width() == 0 {
            self.rooms.spares.keep(form);
        } else {
            self.path.context.keep_room(form);
        }
    }

    // Keeps the room of the forms of a list.
    fn keep_list(&mut self, components: Components) {
        let mut items = components.into_items();
        while let Some(component) = items.pop() {
            self.keep_form(component.into_form());
        }
    }

    // Keeps the room of the forms of a tree.
    fn keep_node(&mut self, node: Node) {
        match node {
            Node::Bottom => {}
            Node::Leaf(components) => self.keep_list(components),
            Node::Select(form, first, second) => {
                self.keep_form(form);
                self.keep_node(Box::into_inner(first));
                self.keep_node(Box::into_inner(second));
            }
            Node::Define(form, _, below) => {
                self.keep_form(form);
                self.keep_node(Box::into_inner(below));
            }
        }
    }

    /// Keeps the room of an answer's forms for the next ones, as far as there is a place for it.
    pub fn keep(&mut self, answer: Answer) {
        if let Answer::Tree(tree) = answer {
            self.rooms.spares.make_room();
            self.keep_node(tree.into_node());
        }
    }
}
